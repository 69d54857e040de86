// Web origins by the places of their parts.
ghost use Rattle.normal_forms.specs.code.Places.{Placed};

// A web origin: its host ends at one place, its colon and port, or nothing, at the other.
#[derive(Clone, Copy)]
pub(crate) struct Web<'a> {
    pub(crate) s: &'a [u8],
    pub(crate) end: usize,
    pub(crate) tail: usize,
    ghost placed: { Placed s.now end tail },
}

impl<'a> Web<'a> {
    ghost use Rattle.std.specs.Prelude.{◌≡◌, length};
    ghost use Rattle.origin.specs.Origin.{normal_form};
    ghost use Rattle.normal_forms.specs.code.Normals.{is_hidden, port_in, web_at, normal_by};

    // The web origin that a text is.
    pub(crate) fn read(s: &'a [u8]) -> Option<Web<'a>>
        ensures { normal_by s.now result ≡ normal_form s.now }
    {
        let p = origin::web_origin(s)?;
        Some(Web {
            s,
            end: p.end,
            tail: p.tail,
        })
    }

    // Its port is absent or 443.
    pub(crate) fn is_hidden(&self) -> bool
        ensures { result ≡ is_hidden (port_in self.now) }
    {
        let from = self.end + 1;
        if self.tail <= from {
            return true;
        }
        ascii::equal(&self.s[from..self.tail], b"443")
    }

    // The length of its normal form.
    pub(crate) fn length(&self) -> usize
        ensures { result ≡ length (web_at self.now) }
    {
        if self.is_hidden() {
            self.end
        } else {
            self.tail
        }
    }
}
