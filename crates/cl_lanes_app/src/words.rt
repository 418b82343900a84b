//! The words of the command line. They are taken literally: `--` and words that begin with `-` have
//! no meaning of their own.
ghost use Rattle.std.specs.Prelude.{◌≡◌, option_map, IfSome};
ghost use Rattle.cl_words.specs.Seen.{command_seen};
ghost use Rattle.cl_words.specs.Words.{texts};
ghost use Rattle.cl_lanes_app.specs.Words.{AllowsLanes, IsLanes, lanes_of, request_by, request_of, request_seen, run_of};

use cl_words::{Command, number_within};

/// What the words ask for.
#[derive(Clone, Copy)]
pub struct Request<'a> {
    /// How many lanes there are, 1 to 16.
    pub lanes: u32,
    /// The number that the moves are drawn by.
    pub seed: u64,
    pub costs: &'a str,
    pub file: &'a str,
}

/// The number of lanes that a word spells, 1 to 16.
fn lanes_of(word: &str) -> Option<u32>
    ensures number { result ≡ lanes_of word.now }
    ensures within { IfSome result IsLanes }
{
    let lanes = number_within(word, 16)?;
    if lanes == 0 {
        return None;
    }
    Some(lanes as u32)
}

fn request_by<'a>(
    lanes: Option<u32>,
    seed: Option<u64>,
    costs: &'a str,
    file: &'a str,
) -> Option<Request<'a>>
    requires { IfSome lanes IsLanes }
    ensures request { option_map request_seen result ≡ request_by lanes seed costs.now file.now }
    ensures lanes { AllowsLanes result }
{
    let lanes = lanes?;
    let seed = seed?;
    Some(Request {
        lanes,
        seed,
        costs,
        file,
    })
}

/// What the words ask for; none where they aren't LANES SEED COSTS TXFILE.
pub(crate) fn request_of(words: &[String]) -> Option<Request<'_>>
    ensures request { option_map request_seen result ≡ request_of (texts words.now) }
    ensures lanes { AllowsLanes result }
{
    match words {
        [lanes, seed, costs, file] => request_by(
            lanes_of(lanes.as_str()),
            number_within(seed.as_str(), u64::MAX),
            costs.as_str(),
            file.as_str(),
        ),
        _ => None,
    }
}

/// The command that reads the same files.
pub(crate) fn run_of<'a>(request: &Option<Request<'a>>) -> Option<Command<'a>>
    ensures { option_map command_seen result ≡ run_of (option_map request_seen request.now) }
{
    match request {
        Some(request) => Some(Command::Run {
            costs: request.costs,
            file: request.file,
            state: false,
        }),
        None => None,
    }
}
