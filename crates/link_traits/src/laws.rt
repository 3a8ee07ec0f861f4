// What holds of each host, by what it tells.
ghost use Rattle.std.specs.Prelude.{◌≡◌, IsSome};
ghost use Rattle.link_traits.specs.Host.{Hosted, objects_out};

/// While no object is out, the output sink is with the host.
pub fn output_is_here()
    ensures { (h : Hosted) → objects_out h ≡ 0 → IsSome h.out }
{}
