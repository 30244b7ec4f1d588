// The watch list as start is given it, and the search in the order given.
ghost use Rattle.std.specs.Prelude.{◌≡◌, ◌<◌};
ghost use Rattle.watch.specs.Given.{lookup_of};

// The first `n` of `ids`, at most 16, are watched. A count beside an array, since start is given more than 16 too, and refuses them.
#[derive(Clone, Copy)]
pub struct Watch {
    pub ids: [u16; 16],
    pub n: usize,
}

// The place of `id`, searched in the order given.
pub fn lookup(watch: Watch, id: u16) -> Option<usize>
    ensures { result ≡ lookup_of watch id }
{
    let n = watch.n.min(16);
    watch.ids[..n].iter().position(|&other| other == id)
}
