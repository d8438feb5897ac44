//! Arguments, and what their words ask for, which is read once.

ghost use Rattle.std.specs.Prelude.{◌≡◌, drop, map, string_bytes};
ghost use Rattle.std.specs.Option.{ForSome};
ghost use Rattle.pdb_request.specs.Asked.{request_shown};
ghost use Rattle.pdb_words.specs.CommandLine.{Parses, asked_of};
ghost use Rattle.pdb_program.specs.Read.{IsOrderly, orderly_one};

use pdb_request::Request;
use pdb_words::read_words;
use std::alloc::Global;

/// The arguments, and what the words among them ask for.
#[derive(Drop)]
pub struct ReadArguments<'n> {
    /// All of them, of which the first is the program's own name.
    pub all: &'n [String],
    /// What the words behind it ask for; none where they ask for nothing, or memory was refused to read them.
    pub asked: Option<Request<'n>>,
    ghost parses: { ForSome asked (λ _. Parses (drop 1 (map string_bytes all.now))) },
    ghost is_asked: { ForSome asked (λ r.
        request_shown r ≡ asked_of (drop 1 (map string_bytes all.now))) },
    ghost orderly: { ForSome asked IsOrderly } by { orderly_one asked },
}

impl<'n> ReadArguments<'n> {
    /// Reads the words among these arguments.
    pub fn of(alloc: Global, all: &'n [String]) -> ReadArguments<'n>
        ensures { result.all.now ≡ all.now }
    {
        match read_words(alloc, words_in(all)) {
            Ok(request) => ReadArguments {
                all,
                asked: Some(request),
            },
            Err(_) => ReadArguments { all, asked: None },
        }
    }
}

/// The words behind the program's own name.
pub(crate) fn words_in<'n>(arguments: &'n [String]) -> &'n [String]
    ensures { map string_bytes result.now ≡ drop 1 (map string_bytes arguments.now) }
{
    if arguments.is_empty() {
        return arguments;
    }
    let (_name, words) = arguments.split_at(1);
    words
}
