//! Why a program can't be loaded.
ghost use Rattle.std.specs.Prelude.{◌≡◌, ◌<◌, ℕ, List, Some, length};
ghost use Rattle.xk_base.specs.declared.limits.TheConstants.{ARG_BYTES};
ghost use Rattle.xk_base.specs.Loaded.{loaded};
ghost use Rattle.exec_core.specs.ArgTexts.{terminated};
ghost use Rattle.call_reasons.specs.Loading.{error_of};

use exec_core::{ArgList, plan};
use xk_base::ExecError;

/// Why a file can't be loaded with these texts, if it can't be.
pub(crate) fn error_with(file: &[u8], args: &ArgList) -> Option<ExecError>
    ensures { result ≡ error_of (loaded file.now args.now) }
{
    match plan(file, args) {
        Ok(_) => None,
        Err(error) => Some(error),
    }
}

/// Why a file can't be loaded with texts that are too long for an [`ArgList`].
pub(crate) fn error_with_long(file: &[u8]) -> ExecError
    ensures { (texts : List (List ℕ)) → ARG_BYTES < length (terminated texts) → Some result ≡ error_of (loaded file.now texts) }
{
    match error_with(file, &ArgList::new()) {
        Some(error) => error,
        None => ExecError::ArgsTooLong,
    }
}
