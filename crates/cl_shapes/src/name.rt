ghost use Rattle.std.specs.Prelude.{◌≡◌};
ghost use Rattle.cl_shapes.specs.Names.{cost_name, cost_names, unit_function};

use crate::function::{CostFn, Shape};

/// What is charged for (SIP-006), in the order of the cost file.
#[derive(Clone, Copy)]
pub enum CostName {
    Literal,
    Lookup,
    Context,
    Control,
    Call,
    Bind,
    Arith,
    Compare,
    Hash,
    Wrap,
    Make,
    Take,
    Scan,
    Iterate,
    ReadVar,
    WriteVar,
    ReadMap,
    WriteMap,
    ReadToken,
    WriteToken,
    Event,
    ContractCall,
    Deploy,
    Define,
}

impl CostName {
    /// Each name once, in order.
    pub const ALL: [CostName; 24] = [
        CostName::Literal,
        CostName::Lookup,
        CostName::Context,
        CostName::Control,
        CostName::Call,
        CostName::Bind,
        CostName::Arith,
        CostName::Compare,
        CostName::Hash,
        CostName::Wrap,
        CostName::Make,
        CostName::Take,
        CostName::Scan,
        CostName::Iterate,
        CostName::ReadVar,
        CostName::WriteVar,
        CostName::ReadMap,
        CostName::WriteMap,
        CostName::ReadToken,
        CostName::WriteToken,
        CostName::Event,
        CostName::ContractCall,
        CostName::Deploy,
        CostName::Define,
    ];

    /// The name in a cost file.
    pub fn name(self) -> &'static str
        ensures { result.now ≡ cost_name self }
    {
        match self {
            CostName::Literal => "literal",
            CostName::Lookup => "lookup",
            CostName::Context => "context",
            CostName::Control => "control",
            CostName::Call => "call",
            CostName::Bind => "bind",
            CostName::Arith => "arith",
            CostName::Compare => "compare",
            CostName::Hash => "hash",
            CostName::Wrap => "wrap",
            CostName::Make => "make",
            CostName::Take => "take",
            CostName::Scan => "scan",
            CostName::Iterate => "iterate",
            CostName::ReadVar => "read_var",
            CostName::WriteVar => "write_var",
            CostName::ReadMap => "read_map",
            CostName::WriteMap => "write_map",
            CostName::ReadToken => "read_token",
            CostName::WriteToken => "write_token",
            CostName::Event => "event",
            CostName::ContractCall => "contract_call",
            CostName::Deploy => "deploy",
            CostName::Define => "define",
        }
    }

    /// The name's function in the unit table: one unit of runtime, and for a read or a write its count and length.
    pub fn unit(self) -> CostFn
        ensures { result ≡ unit_function self }
    {
        let plain = CostFn {
            runtime: Shape::Constant(1),
            read_count: Shape::Constant(0),
            read_length: Shape::Constant(0),
            write_count: Shape::Constant(0),
            write_length: Shape::Constant(0),
        };
        match self {
            CostName::ReadVar | CostName::ReadMap | CostName::ReadToken | CostName::ContractCall =>
                CostFn {
                    read_count: Shape::Constant(1),
                    read_length: Shape::Linear(1, 0),
                    ..plain
                },
            CostName::WriteVar
            | CostName::WriteMap
            | CostName::WriteToken
            | CostName::Deploy
            | CostName::Define => CostFn {
                write_count: Shape::Constant(1),
                write_length: Shape::Linear(1, 0),
                ..plain
            },
            _ => plain,
        }
    }

    /// `ALL` has the names in the order of the cost file.
    pub fn all_in_order()
        ensures { CostName.ALL ≡ cost_names }
    {}
}
