// What a rule gives at its ports.
ghost use Rattle.std.specs.Prelude.{◌≡◌, Some, slice_set};

use quantity::Value;

/// What a rule gives, by port number: `None` at a port that it gives nothing.
#[derive(Clone, Copy, PartialEq, Eq, Debug)]
pub struct Given {
    pub values: [Option<Value>; 4],
}

impl Given {
    /// Puts a value at the place of its port.
    pub fn put(&mut self, port: u8, value: Value)
        ensures { self.new.values ≡ slice_set self.old.values port (Some value) }
    {
        let port = usize::from(port);
        if port < self.values.len() {
            self.values[port] = Some(value);
        }
    }
}
