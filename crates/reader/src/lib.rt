// A reader that refers to a sheet and knows its next bit: thin methods over the fields and windows of crate field.
#![tactic(auto)]

ghost use Rattle.std.specs.Prelude.{◌≡◌, ◌+◌};
ghost use Rattle.field.specs.Bits.{field_at, window_at};
ghost use Rattle.field.specs.Fields.{FieldInside, WindowInside};

#[derive(Clone, Copy)]
pub struct Reader<'a> {
    pub src: &'a [u8],
    pub at: usize,
}

impl<'a> Reader<'a> {
    // The reader of src whose next bit is at.
    pub fn new(src: &'a [u8], at: usize) -> Reader<'a>
        ensures { (result.src ≡ src.entry) × (result.at ≡ at) }
    {
        Reader { src, at }
    }

    // The field of the next width bits; the reader goes on behind them.
    pub fn take(&mut self, width: usize) -> u32
        requires { FieldInside self.old.src.now self.old.at width }
        ensures value { result ≡ field_at self.old.src.now self.old.at width }
        ensures self_after { (self.new.src ≡ self.old.src) × (self.new.at ≡ self.old.at + width) }
    {
        let field = field::field_at(self.src, self.at, width);
        self.at += width;
        field
    }

    // The window of the next width bits; the reader stays.
    pub fn window(&self, width: usize) -> u64
        requires { WindowInside self.now.src.now self.now.at width }
        ensures { result ≡ window_at self.now.src.now self.now.at width }
    {
        field::window(self.src, self.at, width)
    }
}
