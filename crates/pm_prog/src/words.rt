//! The words that the program is given, and what is told where they don't fit.
use pm_rows::Text;
use pm_top::misfit;
use std::alloc::AllocError;
use std::env::{self, Env, FillError};
use std::io::ErrorKind;

/// The longest word that is looked at once more, in bytes, where a word isn't UTF-8.
const LONGEST: usize = 4096;

/// The words after the program's name. Where one isn't UTF-8 there are none, which is no command line either, and it is told
/// which one that is.
pub fn given_words(rt: &HostRuntime) -> Result<Vec<Text>, AllocError> {
    let mut words = Vec::new(rt.alloc());
    let given = match env::args(rt) {
        Ok(given) => given,
        Err(error) if error.kind() == ErrorKind::OutOfMemory => return Err(AllocError),
        Err(_) => {
            print_not_utf8(rt);
            return Ok(words);
        }
    };
    for word in given.skip(1) {
        words.push(Text::of(rt.alloc(), word.as_str())?)?;
    }
    Ok(words)
}

/// Prints which word doesn't fit, as a line on standard error. Where words are missing none does.
pub fn print_misfit(rt: &HostRuntime, words: &[Text]) {
    if let Some(at) = misfit(words) {
        let word = words[at].as_str();
        let _ = eprintln!(rt; "word {} doesn't fit: {word}", at + 1);
    }
}

fn print_not_utf8(rt: &HostRuntime) {
    let mut word = [0; LONGEST];
    for place in 1..usize::MAX {
        match rt.arg(place, &mut word) {
            Ok(length) => {
                if str::from_utf8(&word[..length]).is_err() {
                    let _ = eprintln!(rt; "word {place} isn't UTF-8");
                    return;
                }
            }
            Err(FillError::TooLong) => {}
            Err(FillError::NotPresent) => return,
        }
    }
}
