// Lines of a name and a value.
use text::Printer;

// What stands after a name.
pub(crate) trait Value {
    fn add_to(self, out: &mut Printer);
}

impl Value for u8 {
    fn add_to(self, out: &mut Printer) {
        out.add_decimal(u64::from(self));
    }
}

impl Value for u32 {
    fn add_to(self, out: &mut Printer) {
        out.add_decimal(u64::from(self));
    }
}

impl Value for i32 {
    fn add_to(self, out: &mut Printer) {
        out.add_signed(wire_write::sign_extend(self));
    }
}

impl Value for &str {
    fn add_to(self, out: &mut Printer) {
        out.add(self.as_bytes());
    }
}

// The line `NAME VALUE`.
pub(crate) fn write_line<V: Value>(out: &mut Printer, name: &str, value: V) {
    out.add(name.as_bytes());
    out.add_byte(b' ');
    value.add_to(out);
    out.add_byte(b'\n');
}
