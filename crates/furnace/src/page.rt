// Standard output, and the first error of a write to it, after which nothing more is written.
ghost use Rattle.std.specs.Prelude.{◌≡◌, OnOk, IfErr, None, Some};

use std::fmt::Display;
use std::io;
use std::io::Stdout;

pub(crate) struct Page {
    out: Stdout,
    failed: Option<io::Error>,
}

impl Page {
    pub(crate) fn new(out: Stdout) -> Page
        ensures { result.failed ≡ None }
    {
        Page { out, failed: None }
    }

    // What `write!` and `writeln!` call.
    pub(crate) fn write_fmt<D: Display + Drop>(&mut self, text: D) {
        if self.failed.is_none() {
            self.failed = self.out.print(text).err();
        }
    }

    // All was written, or the error that ended it.
    pub(crate) fn end(self) -> io::Result<()>
        ensures ok { OnOk result (self.failed ≡ None) }
        ensures err { IfErr result (λ e. self.failed ≡ Some e) }
    {
        let Page { out: _, failed } = self;
        match failed {
            None => Ok(()),
            Some(e) => Err(e),
        }
    }
}
