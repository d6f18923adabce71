//! What every command that reads an input is: an engine that takes what was pulled, and writes what that brings. It
//! knows no source and no sink, and no fault of theirs. Read next: `status`.
ghost use Rattle.std.specs.Prelude.{◌≡◌, ◌⊎◌, ℕ, ◌<◌, ◌≤◌, List, ◌++◌, length, take, Some, OnOk, IfOk, IfErr};
ghost use Rattle.tc_io.specs.Verdict.{good};
ghost use Rattle.tc_command.specs.declared.inlet.TheConstants.{KEPT};
ghost use Rattle.tc_command.specs.Halt.{IsHalt};
ghost use Rattle.tc_command.specs.TooFew.{AreTooFew};
ghost use Rattle.tc_command.specs.Meaning.{Meaning, Shows, IsInput};

use crate::halt::Halt;
use crate::input_fault::InputFault;
use crate::output::Output;

/// The work of one command along its input.
pub trait Engine {
    /// What the words choose for it.
    type Choice;

    /// What the command takes and what it writes.
    ghost meaning: { Self.Choice → Meaning };

    /// The choice that it was made with.
    ghost choice: { Self → Self.Choice };

    /// It takes another byte.
    ghost is_going: { Self → Type 0 };

    /// It was given these bytes, and wrote this for them.
    ghost stands: { Self → List ℕ → List ℕ → Type 0 };

    /// How many bytes it still takes, at most.
    ghost budget: { Self → ℕ };

    /// These bytes are too few for it to work on: an interval or a line begins with them, and is not whole.
    ghost is_short: { Self → List ℕ → Type 0 };

    /// Bytes that it was given are good and within the command's own limit, and what it wrote is their part of the
    /// output.
    ghost stands_well: { (engine : Self) (bytes written : List ℕ) → stands engine bytes written
        → Shows (meaning (choice engine)) good bytes × Meaning.part (meaning (choice engine)) bytes written };

    /// Works on the first of the bytes that were pulled, and answers on how many: on none where all of them are too few.
    /// Those come again, in front of the next ones.
    fn take<O: Output>(&mut self, bytes: &[u8], out: &mut O) -> Result<usize, Halt>
        requires going { is_going self.old }
        requires some { 0 < length bytes.now }
        ensures going { OnOk result (is_going self.new) }
        ensures budget { IfOk result (λ count. 1 ≤ count → budget self.new < budget self.old) }
        ensures choice { choice self.new ≡ choice self.old }
        ensures count { IfOk result (λ count. count ≤ length bytes.now) }
        ensures waits { IfOk result (λ count. (1 ≤ count) ⊎ ((budget self.new ≤ budget self.old)
            × is_short self.new bytes.now × AreTooFew (meaning (choice self.old)) (stands self.new) bytes.now)) }

        // What it wrote is the part of these bytes, or they show why it halts among them.
        ensures works { IfOk result (λ count. (front written : List ℕ) → stands self.old front written
            → (more : List ℕ) × O.given out.old out.new more
            × stands self.new (front ++ take count bytes.now) (written ++ more)) }
        ensures halts { IfErr result (λ halt. (front written : List ℕ) → stands self.old front written
            → (more : List ℕ) × O.given out.old out.new more
            × IsHalt (meaning (choice self.old)) halt (front ++ bytes.now) (written ++ more)) };

    /// The fault of an input that ends with these bytes, if they are too few. For most engines none ever are.
    fn cut_off(&self, bytes: &[u8]) -> Option<InputFault>
        requires going { is_going self.now }
        requires few { length bytes.now < KEPT }
        ensures { is_short self.now bytes.now → (front written : List ℕ) → stands self.now front written
            → (fault : InputFault) × (result ≡ Some fault)
            × (Meaning.end_fault (meaning (choice self.now)) (front ++ bytes.now) ≡ Some fault) };

    /// Works on the end of the input, where no bytes are left, and writes what comes last. Of an input that it refuses
    /// it writes nothing more.
    fn finish<O: Output>(&mut self, out: &mut O) -> Result<(), InputFault>
        requires { is_going self.old }
        ensures ends { OnOk result ((bytes written : List ℕ) → stands self.old bytes written
            → (more : List ℕ) × O.given out.old out.new more
            × IsInput (meaning (choice self.old)) bytes
            × Meaning.output (meaning (choice self.old)) bytes (written ++ more)) }
        ensures refuses { IfErr result (λ fault. (bytes written : List ℕ) → stands self.old bytes written
            → (out.new ≡ out.old) × (Meaning.end_fault (meaning (choice self.old)) bytes ≡ Some fault)) };
}
