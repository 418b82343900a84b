//! The natives of the language as one table (SIP-002).
ghost use Rattle.std.specs.Prelude.{◌≡◌, length, map, option_map};
ghost use Rattle.cl_forms.specs.Heads.{native, row_in, row_of, takes, is_had};
ghost use Rattle.cl_forms.specs.NativeRows.{arity_seen, columns_seen, entries_seen, entry_seen, row_seen, rows_had};
ghost use Rattle.cl_forms.specs.Rows.{row_at};

use crate::head::Head::{OnToken, OnValues};
use crate::head::{Head, TokenNative};
use crate::version::Version;
use crate::version::Version::{One, Two};
use Arity::{Either, Exact, OrMore};
use Marks::{First, FirstStarred, Plain, Starred};
use cl_shapes::CostName;
use cl_shapes::CostName::{
    Arith, Compare, ContractCall, Control, Event, Hash, Iterate, Make, ReadMap, ReadToken, ReadVar,
    Scan, Take, Wrap, WriteMap, WriteToken, WriteVar,
};
use cl_types::Name;
use cl_values::Native;

/// How many arguments a native takes, as they stand in the text.
#[derive(Clone, Copy)]
pub enum Arity {
    /// So many.
    Exact(usize),
    /// So many or more.
    OrMore(usize),
    /// One of two numbers.
    Either(usize, usize),
}

impl Arity {
    /// Whether so many arguments are taken.
    pub fn takes(self, count: usize) -> bool
        ensures { result ≡ takes (arity_seen self) count }
    {
        match self {
            Arity::Exact(n) => count == n,
            Arity::OrMore(n) => n <= count,
            Arity::Either(m, n) => count == m || count == n,
        }
    }
}

/// A native: its name, how many arguments it takes, what it is charged as, whether that charge
/// comes before its arguments are evaluated, whether it can be given by name to `map`, `filter`
/// and `fold`, and the version that alone has it.
#[derive(Clone, Copy)]
pub struct NativeRow {
    pub name: &'static str,
    pub head: Head,
    pub arity: Arity,
    pub cost: CostName,
    pub special: bool,
    pub by_name: bool,
    pub only: Option<Version>,
}

/// What comes first of a native's charge and its arguments, and whether it can be given by name.
#[derive(Clone, Copy)]
pub(crate) enum Marks {
    /// Charged after its arguments.
    Plain,
    /// Charged after its arguments; can be given by name.
    Starred,
    /// Charged first.
    First,
    /// Charged first; can be given by name.
    FirstStarred,
}

// A native's name, how many arguments it takes, what it is charged as, its marks, and the version
// that alone has it.
type Columns = (&'static str, Arity, CostName, Marks, Option<Version>);

// The natives on values.
const ADD: Columns = ("+", OrMore(1), Arith, Starred, None);

const SUBTRACT: Columns = ("-", OrMore(1), Arith, Starred, None);

const MULTIPLY: Columns = ("*", OrMore(1), Arith, Starred, None);

const DIVIDE: Columns = ("/", OrMore(1), Arith, Starred, None);

const MODULO: Columns = ("mod", Exact(2), Arith, Starred, None);

const POWER: Columns = ("pow", Exact(2), Arith, Starred, None);

const XOR: Columns = ("xor", Exact(2), Arith, Starred, None);

const SQUARE_ROOT: Columns = ("sqrti", Exact(1), Arith, Starred, None);

const LOG2: Columns = ("log2", Exact(1), Arith, Starred, None);

const TO_INT: Columns = ("to-int", Exact(1), Arith, Starred, None);

const TO_UINT: Columns = ("to-uint", Exact(1), Arith, Starred, None);

const NOT: Columns = ("not", Exact(1), Arith, Starred, None);

const LESS: Columns = ("<", Exact(2), Compare, Starred, Some(One));

const AT_MOST: Columns = ("<=", Exact(2), Compare, Starred, Some(One));

const GREATER: Columns = (">", Exact(2), Compare, Starred, Some(One));

const AT_LEAST: Columns = (">=", Exact(2), Compare, Starred, Some(One));

const SAME: Columns = ("is-eq", OrMore(1), Compare, Starred, None);

const SHA256: Columns = ("sha256", Exact(1), Hash, Starred, None);

const SHA512_OF256: Columns = ("sha512/256", Exact(1), Hash, Starred, None);

const SHA512: Columns = ("sha512", Exact(1), Hash, Starred, None);

const MAKE_SOME: Columns = ("some", Exact(1), Wrap, Starred, None);

const MAKE_OK: Columns = ("ok", Exact(1), Wrap, Starred, None);

const MAKE_ERR: Columns = ("err", Exact(1), Wrap, Starred, None);

const IS_SOME: Columns = ("is-some", Exact(1), Wrap, Starred, None);

const IS_NONE: Columns = ("is-none", Exact(1), Wrap, Starred, None);

const IS_OK: Columns = ("is-ok", Exact(1), Wrap, Starred, None);

const IS_ERR: Columns = ("is-err", Exact(1), Wrap, Starred, None);

const DEFAULT_TO: Columns = ("default-to", Exact(2), Wrap, Plain, None);

const UNWRAP_PANIC: Columns = ("unwrap-panic", Exact(1), Wrap, Plain, None);

const UNWRAP_ERR_PANIC: Columns = ("unwrap-err-panic", Exact(1), Wrap, Plain, None);

const MAKE_LIST: Columns = ("list", OrMore(0), Make, Plain, None);

const MERGE: Columns = ("merge", Exact(2), Make, Plain, None);

const APPEND: Columns = ("append", Exact(2), Make, Plain, None);

const CONCAT: Columns = ("concat", Exact(2), Make, Plain, None);

const LEN: Columns = ("len", Exact(1), Scan, Starred, None);

const ELEMENT_AT: Columns = ("element-at", Exact(2), Scan, Plain, None);

const INDEX_OF: Columns = ("index-of", Exact(2), Scan, Plain, None);

const CONTENT_LESS: Columns = ("<", Exact(2), Compare, Starred, Some(Two));

const CONTENT_AT_MOST: Columns = ("<=", Exact(2), Compare, Starred, Some(Two));

const CONTENT_GREATER: Columns = (">", Exact(2), Compare, Starred, Some(Two));

const CONTENT_AT_LEAST: Columns = (">=", Exact(2), Compare, Starred, Some(Two));

const BIT_AND: Columns = ("bit-and", OrMore(1), Arith, Starred, Some(Two));

const BIT_OR: Columns = ("bit-or", OrMore(1), Arith, Starred, Some(Two));

const BIT_XOR: Columns = ("bit-xor", OrMore(1), Arith, Starred, Some(Two));

const BIT_NOT: Columns = ("bit-not", Exact(1), Arith, Starred, Some(Two));

const SHIFT_LEFT: Columns = ("bit-shift-left", Exact(2), Arith, Starred, Some(Two));

const SHIFT_RIGHT: Columns = ("bit-shift-right", Exact(2), Arith, Starred, Some(Two));

const SLICE: Columns = ("slice?", Exact(3), Make, Plain, Some(Two));

const REPLACE_AT: Columns = ("replace-at?", Exact(3), Make, Plain, Some(Two));

const ENTRY_AT: Columns = ("element-at?", Exact(2), Scan, Plain, Some(Two));

const PLACE_OF: Columns = ("index-of?", Exact(2), Scan, Plain, Some(Two));

const TO_CONSENSUS_BUFF: Columns = ("to-consensus-buff?", Exact(1), Make, Starred, Some(Two));

// The natives that change balances or owners.
const MINT_FT: Columns = ("ft-mint?", Exact(3), WriteToken, Plain, None);

const BURN_FT: Columns = ("ft-burn?", Exact(3), WriteToken, Plain, None);

const SEND_FT: Columns = ("ft-transfer?", Exact(4), WriteToken, Plain, None);

const MINT_NFT: Columns = ("nft-mint?", Exact(3), WriteToken, Plain, None);

const BURN_NFT: Columns = ("nft-burn?", Exact(3), WriteToken, Plain, None);

const SEND_NFT: Columns = ("nft-transfer?", Exact(4), WriteToken, Plain, None);

const SEND_STX: Columns = ("stx-transfer?", Exact(3), WriteToken, Plain, None);

const BURN_STX: Columns = ("stx-burn?", Exact(2), WriteToken, Plain, None);

// The other natives.
const TUPLE_OF: Columns = ("tuple", OrMore(1), Make, Plain, None);

const AS_MAX_LEN: Columns = ("as-max-len?", Exact(2), Make, Plain, None);

const GET: Columns = ("get", Exact(2), Take, Plain, None);

const VAR_GET: Columns = ("var-get", Exact(1), ReadVar, Plain, None);

const VAR_SET: Columns = ("var-set", Exact(2), WriteVar, Plain, None);

const MAP_GET: Columns = ("map-get?", Exact(2), ReadMap, Plain, None);

const MAP_SET: Columns = ("map-set", Exact(3), WriteMap, Plain, None);

const MAP_INSERT: Columns = ("map-insert", Exact(3), WriteMap, Plain, None);

const MAP_DELETE: Columns = ("map-delete", Exact(2), WriteMap, Plain, None);

const FT_BALANCE: Columns = ("ft-get-balance", Exact(2), ReadToken, Plain, None);

const FT_SUPPLY: Columns = ("ft-get-supply", Exact(1), ReadToken, Plain, None);

const STX_BALANCE: Columns = ("stx-get-balance", Exact(1), ReadToken, Plain, None);

const NFT_OWNER: Columns = ("nft-get-owner?", Exact(2), ReadToken, Plain, None);

const PRINT: Columns = ("print", Exact(1), Event, Plain, None);

const IF: Columns = ("if", Exact(3), Control, First, None);

const LET: Columns = ("let", OrMore(2), Control, First, None);

const BEGIN: Columns = ("begin", OrMore(1), Control, First, None);

const AND: Columns = ("and", OrMore(1), Control, FirstStarred, None);

const OR: Columns = ("or", OrMore(1), Control, FirstStarred, None);

const ASSERTS: Columns = ("asserts!", Exact(2), Control, First, None);

const UNWRAP: Columns = ("unwrap!", Exact(2), Control, First, None);

const UNWRAP_ERR: Columns = ("unwrap-err!", Exact(2), Control, First, None);

const TRY: Columns = ("try!", Exact(1), Control, First, None);

const MATCH: Columns = ("match", Either(4, 5), Control, First, None);

const AS_CONTRACT: Columns = ("as-contract", Exact(1), Control, First, None);

const MAP: Columns = ("map", OrMore(2), Iterate, Plain, None);

const FILTER: Columns = ("filter", Exact(2), Iterate, Plain, None);

const FOLD: Columns = ("fold", Exact(3), Iterate, Plain, None);

const CONTRACT_CALL: Columns = ("contract-call?", OrMore(2), ContractCall, Plain, None);

// The natives on values, in the order of their enum.
static VALUES: [Columns; 52] = [
    ADD,
    SUBTRACT,
    MULTIPLY,
    DIVIDE,
    MODULO,
    POWER,
    XOR,
    SQUARE_ROOT,
    LOG2,
    TO_INT,
    TO_UINT,
    NOT,
    LESS,
    AT_MOST,
    GREATER,
    AT_LEAST,
    SAME,
    SHA256,
    SHA512_OF256,
    SHA512,
    MAKE_SOME,
    MAKE_OK,
    MAKE_ERR,
    IS_SOME,
    IS_NONE,
    IS_OK,
    IS_ERR,
    DEFAULT_TO,
    UNWRAP_PANIC,
    UNWRAP_ERR_PANIC,
    MAKE_LIST,
    MERGE,
    APPEND,
    CONCAT,
    LEN,
    ELEMENT_AT,
    INDEX_OF,
    CONTENT_LESS,
    CONTENT_AT_MOST,
    CONTENT_GREATER,
    CONTENT_AT_LEAST,
    BIT_AND,
    BIT_OR,
    BIT_XOR,
    BIT_NOT,
    SHIFT_LEFT,
    SHIFT_RIGHT,
    SLICE,
    REPLACE_AT,
    ENTRY_AT,
    PLACE_OF,
    TO_CONSENSUS_BUFF,
];

// The natives that change balances or owners, in the order of their enum.
static TOKENS: [Columns; 8] = [
    MINT_FT, BURN_FT, SEND_FT, MINT_NFT, BURN_NFT, SEND_NFT, SEND_STX, BURN_STX,
];

// The other natives, in the order of their enum.
static OTHERS: [Columns; 29] = [
    TUPLE_OF,
    AS_MAX_LEN,
    GET,
    VAR_GET,
    VAR_SET,
    MAP_GET,
    MAP_SET,
    MAP_INSERT,
    MAP_DELETE,
    FT_BALANCE,
    FT_SUPPLY,
    STX_BALANCE,
    NFT_OWNER,
    PRINT,
    IF,
    LET,
    BEGIN,
    AND,
    OR,
    ASSERTS,
    UNWRAP,
    UNWRAP_ERR,
    TRY,
    MATCH,
    AS_CONTRACT,
    MAP,
    FILTER,
    FOLD,
    CONTRACT_CALL,
];

// The natives by how many bytes their names have. They stand here with their columns, so that a
// name is compared without a way by the enum.
static BY_LENGTH: [&[(Columns, Head)]; 19] = [
    &[],
    &[
        (ADD, OnValues(Native::Add)),
        (SUBTRACT, OnValues(Native::Subtract)),
        (MULTIPLY, OnValues(Native::Multiply)),
        (DIVIDE, OnValues(Native::Divide)),
        (LESS, OnValues(Native::Less)),
        (GREATER, OnValues(Native::Greater)),
        (CONTENT_LESS, OnValues(Native::ContentLess)),
        (CONTENT_GREATER, OnValues(Native::ContentGreater)),
    ],
    &[
        (AT_MOST, OnValues(Native::AtMost)),
        (AT_LEAST, OnValues(Native::AtLeast)),
        (CONTENT_AT_MOST, OnValues(Native::ContentAtMost)),
        (CONTENT_AT_LEAST, OnValues(Native::ContentAtLeast)),
        (MAKE_OK, OnValues(Native::MakeOk)),
        (IF, Head::If),
        (OR, Head::Or),
    ],
    &[
        (MODULO, OnValues(Native::Modulo)),
        (POWER, OnValues(Native::Power)),
        (XOR, OnValues(Native::Xor)),
        (NOT, OnValues(Native::Not)),
        (MAKE_ERR, OnValues(Native::MakeErr)),
        (GET, Head::Get),
        (LEN, OnValues(Native::Len)),
        (LET, Head::Let),
        (AND, Head::And),
        (MAP, Head::Map),
    ],
    &[
        (LOG2, OnValues(Native::Log2)),
        (MAKE_SOME, OnValues(Native::MakeSome)),
        (MAKE_LIST, OnValues(Native::MakeList)),
        (TRY, Head::Try),
        (FOLD, Head::Fold),
    ],
    &[
        (SQUARE_ROOT, OnValues(Native::SquareRoot)),
        (SAME, OnValues(Native::Same)),
        (IS_OK, OnValues(Native::IsOk)),
        (TUPLE_OF, Head::TupleOf),
        (MERGE, OnValues(Native::Merge)),
        (PRINT, Head::Print),
        (BEGIN, Head::Begin),
        (MATCH, Head::Match),
    ],
    &[
        (TO_INT, OnValues(Native::ToInt)),
        (SHA256, OnValues(Native::Sha256)),
        (SHA512, OnValues(Native::Sha512)),
        (IS_ERR, OnValues(Native::IsErr)),
        (APPEND, OnValues(Native::Append)),
        (CONCAT, OnValues(Native::Concat)),
        (BIT_OR, OnValues(Native::BitOr)),
        (SLICE, OnValues(Native::Slice)),
        (FILTER, Head::Filter),
    ],
    &[
        (TO_UINT, OnValues(Native::ToUint)),
        (IS_SOME, OnValues(Native::IsSome)),
        (IS_NONE, OnValues(Native::IsNone)),
        (BIT_AND, OnValues(Native::BitAnd)),
        (BIT_XOR, OnValues(Native::BitXor)),
        (BIT_NOT, OnValues(Native::BitNot)),
        (VAR_GET, Head::VarGet),
        (VAR_SET, Head::VarSet),
        (MAP_SET, Head::MapSet),
        (UNWRAP, Head::Unwrap),
    ],
    &[
        (INDEX_OF, OnValues(Native::IndexOf)),
        (MAP_GET, Head::MapGet),
        (MINT_FT, OnToken(TokenNative::MintFt)),
        (BURN_FT, OnToken(TokenNative::BurnFt)),
        (ASSERTS, Head::Asserts),
    ],
    &[
        (PLACE_OF, OnValues(Native::PlaceOf)),
        (MINT_NFT, OnToken(TokenNative::MintNft)),
        (BURN_NFT, OnToken(TokenNative::BurnNft)),
        (BURN_STX, OnToken(TokenNative::BurnStx)),
    ],
    &[
        (SHA512_OF256, OnValues(Native::Sha512Of256)),
        (DEFAULT_TO, OnValues(Native::DefaultTo)),
        (ELEMENT_AT, OnValues(Native::ElementAt)),
        (MAP_INSERT, Head::MapInsert),
        (MAP_DELETE, Head::MapDelete),
    ],
    &[
        (AS_MAX_LEN, Head::AsMaxLen),
        (REPLACE_AT, OnValues(Native::ReplaceAt)),
        (ENTRY_AT, OnValues(Native::EntryAt)),
        (UNWRAP_ERR, Head::UnwrapErr),
        (AS_CONTRACT, Head::AsContract),
    ],
    &[
        (UNWRAP_PANIC, OnValues(Native::UnwrapPanic)),
        (SEND_FT, OnToken(TokenNative::SendFt)),
    ],
    &[
        (FT_SUPPLY, Head::FtSupply),
        (SEND_NFT, OnToken(TokenNative::SendNft)),
        (SEND_STX, OnToken(TokenNative::SendStx)),
    ],
    &[
        (SHIFT_LEFT, OnValues(Native::ShiftLeft)),
        (FT_BALANCE, Head::FtBalance),
        (NFT_OWNER, Head::NftOwner),
        (CONTRACT_CALL, Head::ContractCall),
    ],
    &[
        (SHIFT_RIGHT, OnValues(Native::ShiftRight)),
        (STX_BALANCE, Head::StxBalance),
    ],
    &[(UNWRAP_ERR_PANIC, OnValues(Native::UnwrapErrPanic))],
    &[],
    &[(TO_CONSENSUS_BUFF, OnValues(Native::ToConsensusBuff))],
];

// The columns of a native.
fn columns_of(head: Head) -> &'static Columns
    ensures { columns_seen head result.now ≡ row_of head }
{
    match head {
        OnValues(native) => &VALUES[native as usize],
        OnToken(native) => &TOKENS[native as usize],
        Head::TupleOf => &OTHERS[0],
        Head::AsMaxLen => &OTHERS[1],
        Head::Get => &OTHERS[2],
        Head::VarGet => &OTHERS[3],
        Head::VarSet => &OTHERS[4],
        Head::MapGet => &OTHERS[5],
        Head::MapSet => &OTHERS[6],
        Head::MapInsert => &OTHERS[7],
        Head::MapDelete => &OTHERS[8],
        Head::FtBalance => &OTHERS[9],
        Head::FtSupply => &OTHERS[10],
        Head::StxBalance => &OTHERS[11],
        Head::NftOwner => &OTHERS[12],
        Head::Print => &OTHERS[13],
        Head::If => &OTHERS[14],
        Head::Let => &OTHERS[15],
        Head::Begin => &OTHERS[16],
        Head::And => &OTHERS[17],
        Head::Or => &OTHERS[18],
        Head::Asserts => &OTHERS[19],
        Head::Unwrap => &OTHERS[20],
        Head::UnwrapErr => &OTHERS[21],
        Head::Try => &OTHERS[22],
        Head::Match => &OTHERS[23],
        Head::AsContract => &OTHERS[24],
        Head::Map => &OTHERS[25],
        Head::Filter => &OTHERS[26],
        Head::Fold => &OTHERS[27],
        Head::ContractCall => &OTHERS[28],
    }
}

// The row of a native with these columns.
fn row_from(head: Head, columns: &Columns) -> NativeRow
    ensures { row_seen result ≡ columns_seen head columns.now }
{
    let (name, arity, cost, marks, only) = *columns;
    NativeRow {
        name,
        head,
        arity,
        cost,
        special: matches!(marks, Marks::First | Marks::FirstStarred),
        by_name: matches!(marks, Marks::Starred | Marks::FirstStarred),
        only,
    }
}

/// The row of a native.
pub fn row_of(head: Head) -> NativeRow
    ensures { row_seen result ≡ row_of head }
{
    row_from(head, columns_of(head))
}

/// How many arguments a native takes, as they stand in the text.
pub fn arity_of(head: Head) -> Arity
    ensures { arity_seen result ≡ (row_of head).arity }
{
    row_of(head).arity
}

/// What a native is charged as.
pub fn cost_of(head: Head) -> CostName
    ensures { result ≡ (row_of head).cost }
{
    columns_of(head).2
}

/// Whether a native can be given by name to `map`, `filter` and `fold`.
pub fn is_by_name(head: Head) -> bool
    ensures { result ≡ (row_of head).by_name }
{
    row_of(head).by_name
}

// Whether a version has what this one alone has.
fn is_had(version: Version, only: Option<Version>) -> bool
    ensures { result ≡ is_had version only }
{
    match (version, only) {
        (Version::One, Some(Version::Two)) | (Version::Two, Some(Version::One)) => false,
        _ => true,
    }
}

// The first of these natives that the version has under a name.
fn row_among(natives: &[(Columns, Head)], name: &Name, version: Version) -> Option<NativeRow>
    ensures { option_map row_seen result ≡
        row_in (rows_had version (map entry_seen natives.now)) name.now }
{
    for native in natives {
        let columns = &native.0;
        if columns.0.as_bytes() == name.bytes() && is_had(version, columns.4) {
            return Some(row_from(native.1, columns));
        }
    }
    None
}

// The same among those in the row for the name's length: so it is compared with few of them.
#[tactic(auto, unfolding(crate::specs::Rows::row_at))]
fn row_by_length(rows: &[&[(Columns, Head)]], name: &Name, version: Version) -> Option<NativeRow>
    ensures { option_map row_seen result ≡
        row_in (rows_had version (row_at rows.now entries_seen (length name.now))) name.now }
{
    match rows.get(name.bytes().len()) {
        Some(natives) => row_among(natives, name, version),
        None => None,
    }
}

/// The row of a name in a version, if it is a native's there.
pub fn native(name: &Name, version: Version) -> Option<NativeRow>
    ensures { option_map row_seen result ≡ native version name.now }
{
    row_by_length(&BY_LENGTH, name, version)
}
