//! The names of an object's members.
ghost use Rattle.std.specs.Prelude.{◌≡◌, [], ◌∷◌, map, IfSome, IfNone};
ghost use Rattle.cl_file.specs.Names.{names_of, condition_kind, entry_kind};

/// The objects whose members have names.
#[derive(Clone, Copy)]
pub(crate) enum Object {
    Stx,
    Ft,
    Nft,
    Holder,
    Block,
    Deploy,
    Call,
    Epoch,
    /// The file of version 1, and that of version 2.
    File,
    SecondFile,
}

/// What a condition is on.
#[derive(Clone, Copy)]
pub(crate) enum ConditionKind {
    Stx,
    Ft,
    Nft,
}

/// What an entry is.
#[derive(Clone, Copy)]
pub(crate) enum EntryKind {
    Block,
    Deploy,
    Call,
}

/// What a condition is on whose one member has this name.
pub(crate) fn condition_kind(name: &str) -> Option<ConditionKind>
    ensures { result ≡ condition_kind name.now }
{
    match name {
        "stx" => Some(ConditionKind::Stx),
        "ft" => Some(ConditionKind::Ft),
        "nft" => Some(ConditionKind::Nft),
        _ => None,
    }
}

/// What an entry is whose one member has this name.
pub(crate) fn entry_kind(name: &str) -> Option<EntryKind>
    ensures { result ≡ entry_kind name.now }
{
    match name {
        "deploy" => Some(EntryKind::Deploy),
        "call" => Some(EntryKind::Call),
        "block" => Some(EntryKind::Block),
        _ => None,
    }
}

/// The names of an object's members, in order.
pub(crate) fn names_of(object: Object) -> &'static [&'static str]
    ensures { map (λ n. n.now) result.now ≡ names_of object }
{
    match object {
        Object::Stx => &["principal", "code", "amount"],
        Object::Ft => &["principal", "contract", "token", "code", "amount"],
        Object::Nft => &["principal", "contract", "token", "id", "sent"],
        Object::Holder => &["principal", "stx"],
        Object::Block => &["height"],
        Object::Deploy => &[
            "sender", "name", "source", "limit", "mode", "post", "clarity",
        ],
        Object::Call => &[
            "sender", "contract", "function", "args", "limit", "mode", "post",
        ],
        Object::Epoch => &["height", "costs"],
        Object::File => &["version", "genesis", "entries"],
        Object::SecondFile => &["version", "genesis", "epochs", "entries"],
    }
}

/// The first name, and those behind it.
pub(crate) fn split<'n>(names: &'n [&'n str]) -> Option<(&'n str, &'n [&'n str])>
    ensures some { IfSome result
        (λ p. map (λ n. n.now) names.now ≡ p.0.now ∷ map (λ n. n.now) p.1.now) }
    ensures none { IfNone result (map (λ n. n.now) names.now ≡ []) }
{
    match names {
        [name, rest @ ..] => Some((*name, rest)),
        [] => None,
    }
}
