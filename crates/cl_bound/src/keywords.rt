//! What keywords are charged as.
ghost use Rattle.std.specs.Prelude.{◌≡◌};
ghost use Rattle.cl_forms.specs.Keywords.{keyword_cost};

use cl_forms::Keyword;
use cl_shapes::CostName;

pub(crate) fn keyword_cost(keyword: Keyword) -> CostName
    ensures { result ≡ keyword_cost keyword }
{
    match keyword {
        Keyword::True | Keyword::False | Keyword::None => CostName::Literal,
        Keyword::TxSender | Keyword::ContractCaller | Keyword::BlockHeight => CostName::Context,
    }
}
