ghost use Rattle.std.specs.Prelude.{◌≡◌};
ghost use Rattle.std_host.specs.Effects.{function_named};

/// A function that the standard host knows (ISO C99, 7.19).
#[derive(Clone, Copy)]
pub enum Function {
    /// `putchar`, 7.19.7.9.
    Putchar,
    /// `puts`, 7.19.7.10.
    Puts,
    /// `getchar`, 7.19.7.6.
    Getchar,
    /// `printf`, 7.19.6.3.
    Printf,
}

impl Function {
    /// The function of this name, or None where the host knows none.
    pub fn named(name: &[u8]) -> Option<Function>
        ensures { result ≡ function_named name.now }
    {
        if name == b"putchar".as_slice() {
            return Some(Function::Putchar);
        }
        if name == b"puts".as_slice() {
            return Some(Function::Puts);
        }
        if name == b"getchar".as_slice() {
            return Some(Function::Getchar);
        }
        if name == b"printf".as_slice() {
            return Some(Function::Printf);
        }
        None
    }
}
