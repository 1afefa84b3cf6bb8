//! What gives the bytes of a file, so that the program can be run on anything.

ghost use Rattle.std.specs.Prelude.{◌≡◌, List, ℕ, None, IfOk, IfSome, IsErrOf};
ghost use Rattle.a2l.specs.Known.{Known, OfFile};

use a2l_lines::LoadFault;

/// What gives the bytes of a file by its path.
pub trait Load {
    /// What is at a path, where that is known: the bytes of a file, or none that can be read.
    ghost known: { Self → List ℕ → Known };

    /// All bytes of the file.
    fn load(&mut self, path: &str) -> Result<Vec<u8>, LoadFault>
        ensures loaded { IfOk result (λ bytes. OfFile (known self.old path.now) (λ file. bytes.items ≡ file)) }
        ensures device { IsErrOf result LoadFault.Device
            → IfSome (known self.old path.now) (λ there. there ≡ None) };

    /// How many processors no other thread wants, where that is known. No promise rests on it.
    fn free_processors(&self) -> Option<usize>;
}
