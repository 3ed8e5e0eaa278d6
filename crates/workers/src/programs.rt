//! Programs that several threads read.

ghost use Rattle.std.specs.Prelude.{◌≡◌};
ghost use Rattle.endpoint_code.specs.declared.endpoints.Endpoints.{Endpoints as AnyEndpoints};

use endpoint_code::Endpoints;

/// What has endpoint programs. Code that hands them to threads is written over this trait: that they may
/// be shared is then a bound, which is met once, where the threads are asked for.
pub trait Programs {
    /// Which programs these are.
    ghost are: { Self → AnyEndpoints };

    fn endpoints(&self) -> &Endpoints
        ensures { result.now ≡ are self.now };
}

impl Programs for Endpoints {
    ghost are = { λ e. e };

    fn endpoints(&self) -> &Endpoints {
        self
    }
}
