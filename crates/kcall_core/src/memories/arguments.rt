//! The argument texts of an exec, which the caller's memory holds.
ghost use Rattle.std.specs.Prelude.{◌≡◌, ℕ, ◌<◌, List, [], ◌∷◌};
ghost use Rattle.std.specs.Prelude.{◌++◌, true, false, Some, Err, length};
ghost use Rattle.xk_base.specs.declared.limits.TheConstants.{MAXARG, ARG_BYTES};
ghost use Rattle.xk_base.specs.declared.errors.ExecError.{ExecError};
ghost use Rattle.exec_core.specs.ArgTexts.{terminated, push_refusal};
ghost use Rattle.kernel_spec.specs.rows.Buffers.{text_at, texts_at};
ghost use Rattle.kcall_core.specs.Holdings.{HasMemory};
ghost use Rattle.kcall_core.specs.Memories.{each_of, AreSound, image_at};

use crate::memories::Memories;
use exec_core::ArgList;
use xk_base::BadAddress;
use xk_base::limits::{ARG_BYTES, MAXARG};

/// Bytes of the room that is cleared for a text at first. Most texts fit with their zero byte; only for a longer one
/// is the whole room of [`ARG_BYTES`] cleared.
const SHORT_TEXT: usize = 128;

impl Memories {
    /// Adds the text at an address to a list, and tells whether it is there and the list took it.
    fn fetch_arg(&self, slot: usize, address: u64, args: &mut ArgList) -> bool
        requires sound { AreSound self.now }
        requires there { HasMemory (each_of self.now) slot }
        ensures added { result ≡ true
            → (text : List ℕ)
            × (text_at ARG_BYTES (image_at self.now slot) address ≡ Some text)
            × (args.new ≡ args.old ++ text ∷ []) }
        ensures refused { result ≡ false → (text : List ℕ)
            → text_at ARG_BYTES (image_at self.now slot) address ≡ Some text
            → (refusal : ExecError) × (push_refusal args.old text ≡ Err refusal) }
    {
        let mut text = [0; SHORT_TEXT];
        match self.fetch_text(slot, address, &mut text) {
            Ok(len) => args.push(&text[..len]).is_ok(),
            Err(BadAddress) => self.fetch_long_arg(slot, address, args),
        }
    }

    /// The same as [`fetch_arg`](Memories::fetch_arg), for a text that may have many bytes.
    #[cold]
    #[inline(never)]
    fn fetch_long_arg(&self, slot: usize, address: u64, args: &mut ArgList) -> bool
        requires sound { AreSound self.now }
        requires there { HasMemory (each_of self.now) slot }
        ensures added { result ≡ true
            → (text : List ℕ)
            × (text_at ARG_BYTES (image_at self.now slot) address ≡ Some text)
            × (args.new ≡ args.old ++ text ∷ []) }
        ensures refused { result ≡ false → (text : List ℕ)
            → text_at ARG_BYTES (image_at self.now slot) address ≡ Some text
            → (refusal : ExecError) × (push_refusal args.old text ≡ Err refusal) }
    {
        let mut text = [0; ARG_BYTES];
        match self.fetch_text(slot, address, &mut text) {
            Ok(len) => args.push(&text[..len]).is_ok(),
            Err(BadAddress) => false,
        }
    }
}

impl Memories {
    /// Adds the texts that the pointers from an address on lead to, up to a null pointer, to an empty list,
    /// and tells whether all of them are there.
    ///
    /// They are not if the pointers or one of the texts can't be read, if there are more than
    /// [`MAXARG`] texts or one that has, with its zero byte, more than [`ARG_BYTES`] bytes, or if all have
    /// so together, which no stack page holds. Then it is open which texts the list has.
    pub fn fetch_args(&self, slot: usize, pointers: u64, args: &mut ArgList) -> bool
        requires sound { AreSound self.now }
        requires there { HasMemory (each_of self.now) slot }
        requires empty { args.old ≡ [] }
        ensures found { result ≡ true
            → texts_at MAXARG ARG_BYTES (image_at self.now slot) pointers ≡ Some args.new }
        ensures refused { result ≡ false
            → ((texts : List (List ℕ))
            → texts_at MAXARG ARG_BYTES (image_at self.now slot) pointers ≡ Some texts
            → ARG_BYTES < length (terminated texts)) }
    {
        let mut at = pointers;
        let mut more = MAXARG;
        'texts: while more > 0 {
            let Ok(pointer) = self.fetch_u64(slot, at) else {
                return false;
            };
            if pointer == 0 {
                return true;
            }
            if !self.fetch_arg(slot, pointer, args) {
                return false;
            }
            at += 8;
            more -= 1;
        }
        let Ok(pointer) = self.fetch_u64(slot, at) else {
            return false;
        };
        pointer == 0
    }
}
