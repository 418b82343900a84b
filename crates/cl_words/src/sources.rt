//! The paths of sources, and whose contracts they are.
ghost use Rattle.std.specs.Prelude.{◌≡◌};
ghost use Rattle.std.specs.List.{list_all, list_any};
ghost use Rattle.cl_file.specs.Kinds.{short_name};
ghost use Rattle.cl_words.specs.Sources.{last_component, name_of_file, source_name, has_name, have_one_name, names_differ, are_sources, contract_at};
ghost use Rattle.cl_words.specs.Words.{texts};

use cl_c32::{Address, ContractName, Principal};
use cl_forms::Version;
use cl_tx::Row;

/// The most bytes of the name of a contract.
const MOST_NAME_BYTES: usize = 40;

/// A source, and the contract that it is of.
#[derive(Drop)]
pub struct Source {
    pub principal: Principal,
    pub text: Row<u8>,
    /// The version of the language that its text is written in.
    pub version: Version,
}

/// What stands behind the last `/` of a path.
fn last_component(path: &[u8]) -> &[u8]
    ensures { result.now ≡ last_component path.now }
{
    for i in (0..path.len()).rev() {
        if path[i] == b'/' {
            return &path[i + 1..];
        }
    }
    path
}

fn short_name(bytes: &[u8]) -> Option<ContractName>
    ensures { result ≡ short_name bytes.now }
{
    if bytes.len() <= MOST_NAME_BYTES {
        ContractName::make(bytes)
    } else {
        None
    }
}

/// The contract's name in NAME.clar.
fn name_of_file(file: &[u8]) -> Option<ContractName>
    ensures { result ≡ name_of_file file.now }
{
    let end = file.len().saturating_sub(5);
    if &file[end..] == b".clar".as_slice() {
        short_name(&file[..end])
    } else {
        None
    }
}

/// The name of the contract whose source has this path.
fn source_name(path: &str) -> Option<ContractName>
    ensures { result ≡ source_name path.now }
{
    name_of_file(last_component(path.as_bytes()))
}

/// The contract whose source has this path, under an address.
pub fn contract_at(address: &Address, path: &str) -> Principal
    ensures { result ≡ contract_at address.now path.now }
{
    Principal {
        address: *address,
        contract: source_name(path),
    }
}

fn have_names(paths: &[String]) -> bool
    ensures { result ≡ list_all has_name (texts paths.now) }
{
    for path in paths {
        if source_name(path.as_str()).is_none() {
            return false;
        }
    }
    true
}

fn have_one_name(path: &str, other: &str) -> bool
    ensures { result ≡ have_one_name path.now other.now }
{
    match (source_name(path), source_name(other)) {
        (Some(name), Some(other)) => name == other,
        (None, None) => true,
        _ => false,
    }
}

/// Whether one of the paths has the name of this one.
fn name_is_among(path: &str, paths: &[String]) -> bool
    ensures { result ≡ list_any (have_one_name path.now) (texts paths.now) }
{
    for other in paths {
        if have_one_name(path, other.as_str()) {
            return true;
        }
    }
    false
}

fn names_differ(paths: &[String]) -> bool
    ensures { result ≡ names_differ (texts paths.now) }
{
    for i in 0..paths.len() {
        if name_is_among(paths[i].as_str(), &paths[i + 1..]) {
            return false;
        }
    }
    true
}

/// Whether these are at least one path of sources, whose names differ.
pub(crate) fn are_sources(paths: &[String]) -> bool
    ensures { result ≡ are_sources (texts paths.now) }
{
    !paths.is_empty() && have_names(paths) && names_differ(paths)
}
