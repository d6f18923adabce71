//! The engine of each command that reads sound: bytes become samples in a container, and samples become intervals in a
//! listener. Read next: `tc_command/src/engine.rt`.
ghost use Rattle.std.specs.Prelude.{◌≡◌, ◌≤◌, ◌+◌, ◌++◌, ℕ, List, [], length};
ghost use Rattle.signal_commands.specs.KeptListening.{Adds, ContainerKind, Hears, HearsIfAny, IsGoing, ListenerKind};
ghost use Rattle.signal_commands.specs.KeptListening.{Said, Stands, Suits, Waits};

use crate::brought::{Brought, ROOM, Room};
use crate::container::Container;
use crate::listener::Listener;
use tc_command::{Engine, Halt, InputFault, Output};

/// Sound on its way into an interval file.
#[derive(Drop)]
pub(crate) struct Listening<C: Container, L: Listener> {
    container: C,
    words: L::Words,
    /// None before the samples begin.
    listener: Option<L>,
    room: Room,
}

impl<C: Container, L: Listener> Listening<C, L> {
    /// Before the first byte of what tells its format.
    pub(crate) fn before(container: C, words: L::Words) -> Listening<C, L>
        requires suits { Suits C.kind L.kind (ContainerKind.asked C.kind container) words }
        requires holds { ContainerKind.holds C.kind container [] }
        requires waits { Waits L.kind words (ContainerKind.says C.kind (ContainerKind.asked C.kind container) []) [] }
        ensures asked { ContainerKind.asked C.kind result.container ≡ ContainerKind.asked C.kind container }
        ensures words { result.words ≡ words }
        ensures going { IsGoing C.kind L.kind result.container result.listener result.words }
        ensures stands { Stands C.kind L.kind result.container result.listener result.words [] [] }
    {
        Listening {
            container,
            words,
            listener: None,
            room: [0; ROOM],
        }
    }

    /// Before the first byte of samples, with a listener that has begun.
    pub(crate) fn begun(container: C, words: L::Words, listener: L) -> Listening<C, L>
        requires suits { Suits C.kind L.kind (ContainerKind.asked C.kind container) words }
        requires holds { ContainerKind.holds C.kind container [] }
        requires hears { (header : List ℕ)
            × Hears L.kind words listener (ContainerKind.says C.kind (ContainerKind.asked C.kind container) []) header }
        ensures asked { ContainerKind.asked C.kind result.container ≡ ContainerKind.asked C.kind container }
        ensures words { result.words ≡ words }
        ensures going { IsGoing C.kind L.kind result.container result.listener result.words }
        ensures stands { (header : List ℕ)
            → Hears L.kind words listener (ContainerKind.says C.kind (ContainerKind.asked C.kind container) []) header
            → Stands C.kind L.kind result.container result.listener result.words [] header }
    {
        Listening {
            container,
            words,
            listener: Some(listener),
            room: [0; ROOM],
        }
    }
}

/// Hears samples, of which there are none before they begin.
fn hear_in<L: Listener, O: Output>(listener: &mut Option<L>, samples: &[i16], out: &mut O)
    requires { (words : L.Words) × (before : Said) × (written : List ℕ)
        × HearsIfAny L.kind words listener.old before written
        × (length (Said.samples before) + length samples.now ≤ ListenerKind.most L.kind) }
    ensures { (words : L.Words) (most : ℕ) (before now : Said) (written : List ℕ)
        → HearsIfAny L.kind words listener.old before written → Adds most before now samples.now
        → (more : List ℕ) × O.given out.old out.new more
        × HearsIfAny L.kind words listener.new now (written ++ more) }
{
    if let Some(listener) = listener {
        listener.hear(samples, out);
    }
}

/// Ends the sound, if it began.
fn end_in<L: Listener, O: Output>(listener: &mut Option<L>, out: &mut O)
    requires { (words : L.Words) × (said : Said) × (written : List ℕ)
        × HearsIfAny L.kind words listener.old said written }
    ensures { (words : L.Words) (said : Said) (written : List ℕ)
        → HearsIfAny L.kind words listener.old said written
        → (more : List ℕ) × O.given out.old out.new more
        × ListenerKind.whole L.kind words (Said.format said) (Said.samples said) (written ++ more) }
{
    if let Some(listener) = listener {
        listener.finish(out);
    }
}

impl<C: Container, L: Listener> Engine for Listening<C, L> {
    ghost use Rattle.signal_commands.specs.KeptListening.{IsGoing, Stands, ContainerKind, along_sound, stands_well};

    type Choice = (C::Asked, L::Words);

    ghost meaning = { λ choice. along_sound C.kind L.kind choice };

    ghost choice = { λ s. (ContainerKind.asked C.kind s.container, s.words) };

    ghost is_going = { λ s. IsGoing C.kind L.kind s.container s.listener s.words };

    ghost stands = { λ s bytes written. Stands C.kind L.kind s.container s.listener s.words bytes written };

    ghost budget = { λ s. ContainerKind.left C.kind s.container };

    ghost is_short = { λ s bytes. ContainerKind.short C.kind s.container bytes };

    ghost stands_well = { λ s bytes written stands.
        stands_well C.kind L.kind C.is_good L.hears_well s.container s.listener s.words bytes written stands };

    fn take<O: Output>(&mut self, bytes: &[u8], out: &mut O) -> Result<usize, Halt> {
        match self.container.take(bytes, &mut self.room) {
            Brought::Samples { bytes, samples } => {
                hear_in(&mut self.listener, &self.room[..samples], out);
                Ok(bytes)
            }
            Brought::Begin { bytes, format } => {
                let (listener, header) = L::begin(&self.words, Some(format));
                out.gather(&header);
                self.listener = Some(listener);
                Ok(bytes)
            }
            Brought::Few => Ok(0),
            Brought::Halt(halt) => Err(halt),
        }
    }

    fn cut_off(&self, bytes: &[u8]) -> Option<InputFault> {
        self.container.cut_off(bytes)
    }

    fn finish<O: Output>(&mut self, out: &mut O) -> Result<(), InputFault> {
        self.container.finish()?;
        end_in(&mut self.listener, out);
        Ok(())
    }
}
