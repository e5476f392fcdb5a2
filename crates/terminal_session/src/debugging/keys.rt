//! What a command line may say of keys.
use program_files::CommandWord;

/// `--keys`: the path of a file.
pub(crate) const KEYS: &str = "keys";

pub(crate) const KEYS_WORD: CommandWord = CommandWord::Text {
    name: KEYS,
    value: "FILE",
    help: "A file whose bytes are typed, one a round",
};
