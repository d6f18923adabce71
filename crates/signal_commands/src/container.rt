//! Bytes on their way into samples: what holds them raw, or a sound file. Read next: `listener`.
ghost use Rattle.std.specs.Prelude.{◌≡◌, ◌<◌, ℕ, List, ◌++◌, length, Some, None, OnOk, IfErr};
ghost use Rattle.tc_command.specs.declared.inlet.TheConstants.{KEPT};
ghost use Rattle.tc_io.specs.Verdict.{good};
ghost use Rattle.signal_commands.specs.KeptListening.{IsBrought, Said, ContainerKind};

use crate::brought::{Brought, Room};
use tc_command::InputFault;

/// What holds samples in bytes.
pub(crate) trait Container: Drop {
    /// What is asked of it.
    type Asked;

    /// What bytes say, and for which it stands.
    ghost kind: { ContainerKind Self Self.Asked };

    /// Bytes that it was given are good.
    ghost is_good: { (container : Self) (bytes : List ℕ) → ContainerKind.holds kind container bytes
        → Said.verdict (ContainerKind.says kind (ContainerKind.asked kind container) bytes) ≡ good };

    /// Takes the first of the bytes, one at least, and puts the samples that they bring into the room.
    fn take(&mut self, bytes: &[u8], room: &mut Room) -> Brought
        requires going { (front : List ℕ) × ContainerKind.holds kind self.old front }
        requires some { 0 < length bytes.now }
        ensures { IsBrought kind self.old self.new bytes.now room.new result };

    /// The fault of an input that ends with these bytes, if they are too few.
    fn cut_off(&self, bytes: &[u8]) -> Option<InputFault>
        requires going { (front : List ℕ) × ContainerKind.holds kind self.now front }
        requires few { length bytes.now < KEPT }
        ensures { ContainerKind.short kind self.now bytes.now → (front : List ℕ)
            → ContainerKind.holds kind self.now front → (fault : InputFault) × (result ≡ Some fault)
            × (ContainerKind.ends kind (ContainerKind.asked kind self.now) (front ++ bytes.now) ≡ Some fault) };

    /// The end of the input: the fault if it may not end here.
    fn finish(&self) -> Result<(), InputFault>
        requires { (bytes : List ℕ) × ContainerKind.holds kind self.now bytes }
        ensures ends { OnOk result ((bytes : List ℕ) → ContainerKind.holds kind self.now bytes
            → (ContainerKind.ends kind (ContainerKind.asked kind self.now) bytes ≡ None)
            × (Said.all (ContainerKind.says kind (ContainerKind.asked kind self.now) bytes)
            ≡ Said.samples (ContainerKind.says kind (ContainerKind.asked kind self.now) bytes))) }
        ensures refuses { IfErr result (λ fault. (bytes : List ℕ) → ContainerKind.holds kind self.now bytes
            → ContainerKind.ends kind (ContainerKind.asked kind self.now) bytes ≡ Some fault) };
}
