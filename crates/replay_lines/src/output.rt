// Standard output by way of a buffer of fixed size.
ghost use Rattle.std.specs.Prelude.{◌≤◌};

// Bytes that wait to be written out.
#[derive(Drop)]
pub struct Output {
    bytes: [u8; 65536],
    len: usize,
    ghost fits: { len ≤ 65536 },
}

impl Output {
    pub fn new() -> Output {
        Output {
            bytes: io::large_buffer(),
            len: 0,
        }
    }

    // The waiting bytes are written out.
    pub fn flush(&mut self) {
        io::write_all(1, &self.bytes[..self.len]);
        self.len = 0;
    }

    // One byte more. A full buffer is written out first.
    pub fn put(&mut self, byte: u8) {
        if self.len == self.bytes.len() {
            io::write_all(1, &self.bytes);
            self.len = 0;
        }
        self.bytes[self.len] = byte;
        self.len += 1;
    }

    pub fn put_all(&mut self, bytes: &[u8]) {
        for byte in bytes {
            self.put(*byte);
        }
    }

    // A number in decimal.
    pub fn put_digits(&mut self, number: usize) {
        let mut digits = [0; 20];
        let n = io::decimal(number as u64, &mut digits);
        self.put_all(&digits[..n]);
    }

    // A space and a number in decimal.
    pub fn put_number(&mut self, number: usize) {
        self.put(b' ');
        self.put_digits(number);
    }

    // Bytes, two digits each, in lower case.
    pub fn put_hex(&mut self, bytes: &[u8]) {
        let digits = b"0123456789abcdef";
        for byte in bytes {
            self.put(digits[(*byte / 16) as usize]);
            self.put(digits[(*byte % 16) as usize]);
        }
    }

    // A fault by its number, and the offset of the byte that it names.
    pub fn put_refused(&mut self, fault: usize, at: usize) {
        self.put_all(b"refused");
        self.put_number(fault);
        self.put_number(at);
    }
}
