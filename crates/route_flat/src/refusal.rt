// Why there are no routes.
ghost use Rattle.std.specs.Prelude.{◌≡◌};

use quantity::OutOfMemory;

/// Why there are no routes.
#[derive(Clone, Copy, Debug)]
pub enum RouteRefusal {
    /// There are more than `MAX_PATHS` paths along links.
    TooManyRoutes,
    /// There is no memory.
    Memory,
}

impl From<OutOfMemory> for RouteRefusal {
    ghost use Rattle.route_flat.specs.declared.refusal.RouteRefusal.TheVariants.{Memory};

    ghost from_gives = { λ _ refusal. refusal ≡ Memory };

    fn from(_error: OutOfMemory) -> RouteRefusal {
        RouteRefusal::Memory
    }
}
