// An output that is written from its front on.
ghost use Rattle.std.specs.Prelude.{◌≡◌};
ghost use Rattle.normal_forms.specs.code.Writing.{Puts};

use crate::web::Web;
use crate::{fits, write_bytes};

// The output, and the place up to which it is written.
#[derive(Drop)]
pub struct Writer<'a> {
    pub out: &'a mut [u8],
    pub at: usize,
}

impl Writer<'_> {
    ghost use Rattle.ascii.specs.Ascii.{lower};
    ghost use Rattle.origin.specs.Origin.{shown_port, normal_form};
    ghost use Rattle.normal_forms.specs.code.Normals.{port_in, web_at};

    // The bytes x, where there is room for them all; else nothing, here and below.
    pub fn write(&mut self, x: &[u8])
        ensures { Puts x.now self.old self.new }
    {
        self.at = write_bytes(x, self.out, self.at);
    }

    // The bytes x in lower case.
    pub fn write_lower(&mut self, x: &[u8])
        ensures { Puts (lower x.now) self.old self.new }
    {
        let at = self.at;
        self.write(x);
        if at < self.at {
            self.out[at..self.at].make_ascii_lowercase();
        }
    }

    // The colon and port of a web origin, unless absent or 443.
    fn write_port(&mut self, web: &Web)
        ensures { Puts (shown_port (port_in web.now)) self.old self.new }
    {
        if web.is_hidden() {
            return;
        }
        self.write(&web.s[web.end..web.tail]);
    }

    // The normal form of a web origin.
    fn write_web(&mut self, web: &Web)
        ensures { Puts (web_at web.now) self.old self.new }
    {
        if !fits(self.out.len(), self.at, web.length()) {
            return;
        }
        self.write(b"https://");
        self.write_lower(&web.s[8..web.end]);
        self.write_port(web);
    }

    // The normal form of s.
    pub fn write_normal(&mut self, s: &[u8])
        ensures { Puts (normal_form s.now) self.old self.new }
    {
        match Web::read(s) {
            Some(web) => self.write_web(&web),
            None => self.write(s),
        }
    }
}
