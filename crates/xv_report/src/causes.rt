//! The causes of faults, in words.
ghost use Rattle.std.specs.Prelude.{◌≡◌};
ghost use Rattle.xv_report.specs.Causes as meant;

use xk_base::Cause;

/// Why an instruction can't be done, if no more is known than the cause.
pub fn cause_text(cause: Cause) -> &'static str
    ensures { result.now ≡ meant.cause_text cause }
{
    match cause {
        Cause::TargetMisaligned => "a jump to an address that is no multiple of 4",
        Cause::IllegalInstruction => "a word that is no instruction",
        Cause::Breakpoint => "ebreak",
        Cause::LoadMisaligned => "a load at an address that is no multiple of its size",
        Cause::StoreMisaligned => "a store at an address that is no multiple of its size",
        Cause::FetchPageFault => "an instruction where nothing may be executed",
        Cause::LoadPageFault => "a load where nothing may be read",
        Cause::StorePageFault => "a store where nothing may be written",
    }
}
