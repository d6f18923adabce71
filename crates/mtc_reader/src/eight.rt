//! Eight quarter frames at once. Read next: `address`.
ghost use Rattle.std.specs.Prelude.{◌≡◌, ◌≤◌, ◌+◌, ◌%◌, ◌++◌, ℕ, List, [], ◌∷◌, true, bytes_eq, length, map};
ghost use Rattle.std.specs.Prelude.{take, IfSome};
ghost use Rattle.std.specs.Int.{to_be_bytes, w64};
ghost use Rattle.mtc_reader.specs.declared.eight.TheConstants.{NO_QUARTER};
ghost use Rattle.mtc_reader.specs.Events.{latest_eight, piece_of, pieces};
ghost use Rattle.mtc_reader.specs.Laws.{quarters};
ghost use Rattle.mtc_reader.specs.StandsFor.{eight_in, four_in, have_ends};

/// What stands for a quarter frame that did not come yet: a number with no piece.
pub const NO_QUARTER: u8 = 0xff;

/// Four that did not come yet.
const NONE_YET: u64 = u64::MAX;

/// Eight quarter frames in two numbers of four, each with both its bytes as they come, the first one highest.
#[derive(Clone, Copy)]
pub struct EightQuarters {
    first: u64,
    last: u64,
}

impl EightQuarters {
    /// Eight that did not come yet.
    pub fn none_yet() -> EightQuarters
        ensures { eight_in result ≡ NO_QUARTER ∷ NO_QUARTER ∷ NO_QUARTER ∷ NO_QUARTER
            ∷ NO_QUARTER ∷ NO_QUARTER ∷ NO_QUARTER ∷ NO_QUARTER ∷ [] }
    {
        EightQuarters {
            first: NONE_YET,
            last: NONE_YET,
        }
    }

    /// The quarter frames in front, if these are eight whose pieces rise from 0 to 7.
    #[inline(always)]
    pub fn rising(bytes: &[u8]) -> Option<EightQuarters>
        ensures long { IfSome result (λ eight. 16 ≤ length bytes.now) }
        ensures front { IfSome result (λ eight. take 16 bytes.now ≡ quarters (eight_in eight)) }
        ensures pieces { IfSome result (λ eight. bytes_eq (map piece_of (eight_in eight)) pieces ≡ true) }
    {
        let [a, b, c, d, e, f, g, h, i, j, k, l, m, n, o, p, ..] = bytes else {
            return None;
        };
        let first = u64::from_be_bytes([*a, *b, *c, *d, *e, *f, *g, *h]);
        let last = u64::from_be_bytes([*i, *j, *k, *l, *m, *n, *o, *p]);
        if rise_from(first, 0) && rise_from(last, 4) {
            Some(EightQuarters { first, last })
        } else {
            None
        }
    }

    /// The latest eight, when one more comes.
    #[inline(always)]
    pub fn next(self, quarter: u8) -> EightQuarters
        ensures { (row : List ℕ) → 8 ≤ length row → eight_in self ≡ latest_eight row
            → eight_in result ≡ latest_eight (row ++ quarter ∷ []) }
    {
        EightQuarters {
            first: (self.first << 16) + (self.last >> 48),
            last: (self.last << 16) + u64::from(quarter),
        }
    }

    /// Their data bytes.
    #[inline(always)]
    pub fn numbers(self) -> [u8; 8]
        ensures { result ≡ eight_in self }
    {
        [
            lowest(self.first >> 48),
            lowest(self.first >> 32),
            lowest(self.first >> 16),
            lowest(self.first),
            lowest(self.last >> 48),
            lowest(self.last >> 32),
            lowest(self.last >> 16),
            lowest(self.last),
        ]
    }

    /// Whether they begin and end as those that carry an address: with the pieces 0 and 7 forward, and with 7
    /// and 0 backward.
    #[inline(always)]
    pub fn may_carry(self) -> bool
        ensures { result ≡ have_ends (eight_in self) }
    {
        let first = (self.first >> 48) % 256 / 16;
        let last = self.last % 256 / 16;
        match last {
            7 => first == 0,
            0 => first == 7,
            _ => false,
        }
    }
}

/// The lowest byte.
#[inline(always)]
fn lowest(number: u64) -> u8
    ensures { result ≡ number % 256 }
{
    (number % 256) as u8
}

/// Whether four messages are quarter frames whose pieces rise from this one on.
#[inline(always)]
fn rise_from(four: u64, piece: u64) -> bool
    requires { piece ≤ 4 }
    ensures bytes { result ≡ true → to_be_bytes w64 four ≡ quarters (four_in four) }
    ensures pieces { result ≡ true → map piece_of (four_in four)
        ≡ piece ∷ (piece + 1) ∷ (piece + 2) ∷ (piece + 3) ∷ [] }
{
    // A status byte with the piece behind it.
    let first = 0xf10 + piece;
    four >> 52 == first
        && (four >> 36) % 4096 == first + 1
        && (four >> 20) % 4096 == first + 2
        && (four >> 4) % 4096 == first + 3
}
