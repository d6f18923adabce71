//! Where an engine writes. Whether what it wrote goes out is not its business: nothing here can fail. Read next:
//! `outlet`.
ghost use Rattle.std.specs.Prelude.{ℕ, ◌≤◌, List, [], ◌++◌, length};

/// Takes what an engine writes, in order.
pub trait Output {
    /// Between these two states it was given these bytes.
    ghost given: { Self → Self → List ℕ → Type 0 };

    /// No bytes leave it as it was.
    ghost given_none: { (out : Self) → given out out [] };

    /// Bytes, and then more, are all of them in order.
    ghost given_more: { (a b c : Self) (bytes more : List ℕ) → given a b bytes → given b c more
        → given a c (bytes ++ more) };

    /// Takes bytes that go out at once, behind those that are gathered: a line, or what a frame brings.
    fn write(&mut self, bytes: &[u8])
        ensures { given self.old self.new bytes.now };

    /// Takes bytes that are gathered with those before and behind them: they go out when no more fit, and before the
    /// next pull at the latest.
    fn gather(&mut self, bytes: &[u8])
        requires { length bytes.now ≤ 4096 }
        ensures { given self.old self.new bytes.now };
}
