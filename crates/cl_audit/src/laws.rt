//! Laws of walks, in the words of the meaning. Each function here does nothing.
ghost use Rattle.std.specs.Prelude.{◌≡◌};
ghost use Rattle.cl_meaning.specs.Answers.{Answer};
ghost use Rattle.cl_meaning.specs.Limits.{limited};
ghost use Rattle.cl_meaning.specs.Trace.{trace_of};
ghost use Rattle.cl_walks.specs.Walked.{Rules, Book, walked};
ghost use Rattle.cl_audit.specs.Agrees.{looks, with_kept};

/// A walk ends as the limit leaves an answer, and its observer has seen each claim of the trace
/// under the limit, one after another, and nothing else.
pub fn walks_are_limited<K, A>()
    ensures { (R : Rules K) (b : Book K) (a : Answer A) →
        walked R b a ≡
        with_kept (limited R.costs b.purse a) (looks R (trace_of R.costs b.purse a) b.kept) }
{}
