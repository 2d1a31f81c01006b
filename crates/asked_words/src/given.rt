// The words that a process is given.
ghost use Rattle.std.specs.Prelude.{◌≡◌, [], ◌∷◌, IfOk, IfErr, IsErr, MatchResult, map};
ghost use Rattle.std.specs.declared.io.ErrorKind.TheVariants.{OutOfMemory as NoMemory};
ghost use Rattle.std.specs.IoError.{error_kind};
ghost use Rattle.std.specs.String.{string_bytes};
ghost use Rattle.std.specs.Vec.Iter.{into_iter_items};

use quantity::OutOfMemory;
use std::alloc::{AllocError, Global};
use std::env::Args;
use std::io::{self, ErrorKind};

/// The words of a command line. Where one of them is no text, the name of the program stands alone,
/// so that the program refuses them as all others that it doesn't take. Where there was no memory
/// for them, there is none for the program.
pub fn given_words(
    alloc: Global,
    args: io::Result<Args>,
    program: &str,
) -> Result<Vec<String>, OutOfMemory>
    ensures words { MatchResult args
        (λ given. IfOk result (λ words. words.items ≡ into_iter_items given))
        (λ error. IfOk result (λ words. map string_bytes words.items ≡ program.now ∷ [])) }
    ensures memory { IfErr args (λ error. error_kind error ≡ NoMemory → IsErr result) }
{
    match args {
        Ok(given) => Ok(all_of(alloc, given)?),
        Err(error) => no_words(alloc, error.kind(), program),
    }
}

/// What stands for words that are not given, for a reason of this kind.
fn no_words(alloc: Global, kind: ErrorKind, program: &str) -> Result<Vec<String>, OutOfMemory>
    ensures words { IfOk result (λ words. map string_bytes words.items ≡ program.now ∷ []) }
    ensures memory { (kind ≡ NoMemory → IsErr result) }
{
    match kind {
        ErrorKind::OutOfMemory => Err(OutOfMemory),
        _ => name_alone(alloc, program),
    }
}

/// All words, in their order.
fn all_of(alloc: Global, given: Args) -> Result<Vec<String>, AllocError>
    ensures { IfOk result (λ words. words.items ≡ into_iter_items given) }
{
    given.collect(alloc)
}

/// The name of the program alone.
fn name_alone(alloc: Global, program: &str) -> Result<Vec<String>, OutOfMemory>
    ensures { IfOk result (λ words. map string_bytes words.items ≡ program.now ∷ []) }
{
    let name = String::from_str(alloc, program)?;
    let mut words = Vec::new(alloc);
    let Ok(()) = words.push(name) else {
        return Err(OutOfMemory);
    };
    Ok(words)
}
