// The AppID, where it is an HTTPS URL.
ghost use Rattle.entries.specs.code.HostEnds.{HostEnds};

// An AppID that is an HTTPS URL, whose host ends at a place.
#[derive(Clone, Copy)]
pub struct Url<'a> {
    pub appid: &'a [u8],
    pub end: usize,
    ghost host_ends: { HostEnds appid.now end },
}
