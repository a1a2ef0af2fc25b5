ghost use Rattle.std.specs.Prelude.{◌≡◌};
ghost use Rattle.pending_json.specs.Committers.{committer_of, committer_word};

use s3_types::Committer;

/// The name of a committer, as scripts and `_SUCCESS` spell it. Takes no memory.
pub fn committer_word(committer: Committer) -> &'static str
    ensures { result.now ≡ committer_word committer }
{
    match committer {
        Committer::Magic => "magic",
        Committer::Directory => "directory",
        Committer::Partitioned => "partitioned",
    }
}

/// The committer with this name, or none. Takes no memory.
pub fn committer_of(word: &str) -> Option<Committer>
    ensures { result ≡ committer_of word.now }
{
    match word {
        "magic" => Some(Committer::Magic),
        "directory" => Some(Committer::Directory),
        "partitioned" => Some(Committer::Partitioned),
        _ => None,
    }
}
