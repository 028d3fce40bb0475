// What the lines under a Q say of it: its first M, A and R, how many T and S lines there are, and so its length and whether a K names its value.
ghost use Rattle.std.specs.Prelude.{◌≡◌, cond, ◌<◌, ◌≤◌, length};
ghost use Rattle.text.specs.Judge.{most_bytes};
ghost use Rattle.text.specs.Records.{Readable};
ghost use Rattle.command_text.specs.Rules.{rules};
ghost use Rattle.command_rules.specs.Field.{array_ascii, variant_ascii, variant_rule, variable_rule, rule_of, is_const, is_named};
ghost use Rattle.command_schema.specs.Gathered.{gathered_none, with_variant, with_array, with_bitmask, with_bits, noted_row, Gathers, bitmask_in, array_said};
ghost use Rattle.command_schema.specs.Gathered.{array_in, variant_said, variant_in, length_number};

use command_class::{NO_NUMBER, Row};
use command_text::ParamType;
use text::Place;

// A Q's length, as a row says it: up to 255 bytes, or the rest. A length that is missing is the rest.
pub const OPEN: u16 = NO_NUMBER;

// The same where an entry counts it.
const COUNTED: u16 = 257;

// The length of the first M where there is no M.
const NO_BITMASK: u16 = 257;

// The first A under a Q; NO_NUMBER for its length where there is none.
#[derive(Clone, Copy)]
pub struct ArrayAttrib {
    pub len: u16,
    pub ascii: bool,
}

// The first R under a Q; NO_NUMBER for its offset where there is none.
#[derive(Clone, Copy)]
pub struct Variant {
    pub paramoffs: u16,
    pub sizemask: u16,
    pub sizeoffs: u16,
    pub ascii: bool,
}

// What is gathered of the lines under a Q: the first M's length, the first A, the first R, and how many T and S lines there are.
#[derive(Clone, Copy)]
pub struct Gathered {
    pub bitmask: u16,
    pub array: ArrayAttrib,
    pub variant: Variant,
    pub bits: u16,
}

// What is gathered of the lines under a Q, and the place after them.
#[derive(Clone, Copy)]
pub struct Under {
    pub gathered: Gathered,
    pub next: Place,
}

fn nothing() -> Gathered
    ensures { result ≡ gathered_none }
{
    Gathered {
        bitmask: NO_BITMASK,
        array: ArrayAttrib {
            len: NO_NUMBER,
            ascii: false,
        },
        variant: Variant {
            paramoffs: NO_NUMBER,
            sizemask: 0,
            sizeoffs: 0,
            ascii: false,
        },
        bits: 0,
    }
}

impl Gathered {
    // With an R.
    fn with_variant(self, row: Row) -> Gathered
        ensures { result ≡ with_variant self row.offset row.mask row.shift row.ascii }
    {
        if self.variant.paramoffs != NO_NUMBER {
            return self;
        }
        let array = self.array;
        Gathered {
            bitmask: self.bitmask,
            array,
            variant: Variant {
                paramoffs: row.offset,
                sizemask: row.mask,
                sizeoffs: row.shift,
                ascii: row.ascii,
            },
            bits: self.bits,
        }
    }

    // With an A.
    fn with_array(self, row: Row) -> Gathered
        ensures { result ≡ with_array self row.value row.ascii }
    {
        if self.array.len != NO_NUMBER {
            return self;
        }
        let variant = self.variant;
        Gathered {
            bitmask: self.bitmask,
            array: ArrayAttrib {
                len: row.value,
                ascii: row.ascii,
            },
            variant,
            bits: self.bits,
        }
    }

    // With an M.
    fn with_bitmask(self, row: Row) -> Gathered
        ensures { result ≡ with_bitmask self row.value }
    {
        if self.bitmask != NO_BITMASK {
            return self;
        }
        let array = self.array;
        let variant = self.variant;
        Gathered {
            bitmask: row.value,
            array,
            variant,
            bits: self.bits,
        }
    }

    // With a T or S.
    fn with_bits(self) -> Gathered
        requires { self.bits < 65535 }
        ensures { result ≡ with_bits self }
    {
        let array = self.array;
        let variant = self.variant;
        Gathered {
            bitmask: self.bitmask,
            array,
            variant,
            bits: self.bits + 1,
        }
    }

    // With one line more.
    fn note(self, row: Row) -> Gathered
        requires { self.bits < 65535 }
        ensures { result ≡ noted_row self row }
    {
        let kind = row.kind;
        match kind {
            b'R' => self.with_variant(row),
            b'A' => self.with_array(row),
            b'M' => self.with_bitmask(row),
            b'T' => self.with_bits(),
            b'S' => self.with_bits(),
            _ => self,
        }
    }
}

// Gathers the lines under a Q, from the place after it.
pub fn gather(text: &[u8], start: Place) -> Under
    requires { (Readable rules text.now start) × (length text.now ≤ most_bytes) }
    ensures { Gathers text.now start result }
{
    let mut gathered = nothing();
    let mut place = start;
    while place.at < text.len() {
        let kind = command_class::kind_at(text, place);
        if command_class::is_entry(kind) {
            return Under {
                gathered,
                next: place,
            };
        }
        if kind == b'K' {
            place = command_class::pass_at(text, place);
            continue;
        }
        let read = command_class::read_at(text, place);
        let row = read.row;
        gathered = gathered.note(row);
        place = read.next;
    }
    Under {
        gathered,
        next: place,
    }
}

fn variant_length(variant: Variant) -> u16
    ensures { result ≡ length_number (variant_rule (variant_said variant)) }
{
    if variant.paramoffs == NO_NUMBER {
        return OPEN;
    }
    if variant.paramoffs == 255 {
        return OPEN;
    }
    if variant.sizemask == 0 {
        return OPEN;
    }
    COUNTED
}

fn variable_length(g: Gathered) -> u16
    ensures { result ≡ length_number (variable_rule (bitmask_in g) (variant_in g)) }
{
    if g.bitmask < NO_NUMBER {
        return g.bitmask;
    }
    let variant = g.variant;
    variant_length(variant)
}

// A Q's length, as a row says it.
pub fn length_of(typed: ParamType, g: Gathered) -> u16
    ensures { result ≡ length_number (rule_of typed (bitmask_in g) (array_in g) (variant_in g)) }
{
    match typed {
        ParamType::Byte => 1,
        ParamType::StructByte => 1,
        ParamType::Const => 1,
        ParamType::Marker => 1,
        ParamType::Word => 2,
        ParamType::Bit24 => 3,
        ParamType::Dword => 4,
        ParamType::Array => g.array.len,
        ParamType::Variant => variable_length(g),
        ParamType::Bitmask => variable_length(g),
        ParamType::MultiArray => variable_length(g),
    }
}

fn is_const(typed: ParamType) -> bool
    ensures { result ≡ is_const typed }
{
    match typed {
        ParamType::Byte => false,
        ParamType::StructByte => false,
        ParamType::Const => true,
        ParamType::Marker => false,
        ParamType::Word => false,
        ParamType::Bit24 => false,
        ParamType::Dword => false,
        ParamType::Array => false,
        ParamType::Variant => false,
        ParamType::Bitmask => false,
        ParamType::MultiArray => false,
    }
}

fn is_array_ascii(array: ArrayAttrib) -> bool
    ensures { result ≡ array_ascii (array_said array) }
{
    if array.len == NO_NUMBER {
        return false;
    }
    array.ascii
}

fn is_variant_ascii(variant: Variant) -> bool
    ensures { result ≡ variant_ascii (variant_said variant) }
{
    if variant.paramoffs == NO_NUMBER {
        return false;
    }
    variant.ascii
}

// 1 for a Q whose value a K names, else 0.
pub fn named_of(typed: ParamType, g: Gathered) -> u16
    ensures { result ≡ cond (is_named typed (array_in g) (variant_in g)) 1 0 }
{
    let array = g.array;
    let variant = g.variant;
    if is_const(typed) {
        if is_array_ascii(array) {
            return 0;
        }
        if is_variant_ascii(variant) {
            return 0;
        }
        return 1;
    }
    0
}
