//! What takes no memory and isn't computed as an example: the order of principals, which is derived.
use cl_c32::{Address, ContractName, Principal};

// Whether the principal of the first hash and name is below that of the second; an empty text is no contract name.
fn is_below(
    version: u8,
    hash: u8,
    name: &str,
    other: u8,
    other_hash: u8,
    other_name: &str,
) -> bool {
    if version >= 32 || other >= 32 {
        return false;
    }
    let first = Principal {
        address: Address::new(version, &[hash; 20]),
        contract: ContractName::make(name.as_bytes()),
    };
    let second = Principal {
        address: Address::new(other, &[other_hash; 20]),
        contract: ContractName::make(other_name.as_bytes()),
    };
    first < second && second > first
}

#[test]
fn principals_in_order(rt: HostRuntime) {
    assert!(rt; is_below(20, 255, "", 20, 255, "b"));
    assert!(rt; is_below(20, 255, "b", 22, 0, ""));
    assert!(rt; is_below(22, 0, "", 22, 0, "a"));
    assert!(rt; is_below(22, 0, "a", 22, 0, "a-"));
    assert!(rt; is_below(22, 0, "a-", 22, 0, "aa"));
    assert!(rt; is_below(22, 0, "aa", 22, 0, "b"));
}
