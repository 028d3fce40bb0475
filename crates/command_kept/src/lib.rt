// What the check of a command text keeps of the lines before, and how it judges a line by that.
#![tactic(auto, using(crate::proofs::Laws::room, crate::proofs::Laws::judge_laws))]

ghost use Rattle.std.specs.Prelude.{◌≡◌, ◌<◌};
ghost use Rattle.command_kept.specs.Kept.{nothing, full, begun, far, judged_param, judged_group, judged_item, judged};

use text::Misfit;

// What limits and owners look at in a line: a Q's level, the shift of a G or of an item line, 0 where it has none.
#[derive(Clone, Copy)]
pub enum Form {
    Param { level: u16 },
    Group { shift: u16 },
    Item { shift: u16 },
}

// What is kept of the lines before: how many Q and G lines there were, whether the last of them is a Q, whether a level 1 Q
// would be a member of a G, and how many lines stand under the last Q or G.
#[derive(Clone, Copy)]
pub struct Kept {
    pub count: u16,
    pub owned: bool,
    pub grouped: bool,
    pub items: u8,
}

// Before the first line.
pub fn start() -> Kept
    ensures { result ≡ nothing }
{
    Kept {
        count: 0,
        owned: false,
        grouped: false,
        items: 0,
    }
}

impl Kept {
    // Are there as many Q and G lines as may be?
    fn is_full(self) -> bool
        ensures { result ≡ full self }
    {
        256 <= self.count
    }

    // After a Q or G.
    fn begin(self, owned: bool, grouped: bool) -> Self
        requires { self.count < 256 }
        ensures { result ≡ begun self owned grouped }
    {
        Kept {
            count: self.count + 1,
            owned,
            grouped,
            items: 0,
        }
    }

    fn param(self, level: u16) -> Result<Kept, Misfit>
        ensures { result ≡ judged_param self level }
    {
        if self.is_full() {
            return Err(Misfit::Passed);
        }
        if level != 1 {
            return Ok(self.begin(true, false));
        }
        if !self.grouped {
            return Err(Misfit::Lost);
        }
        Ok(self.begin(true, true))
    }

    fn group(self, shift: u16) -> Result<Kept, Misfit>
        ensures { result ≡ judged_group self shift }
    {
        if self.is_full() {
            return Err(Misfit::Passed);
        }
        if is_far(shift) {
            return Err(Misfit::Lost);
        }
        Ok(self.begin(false, true))
    }

    fn item(self, shift: u16) -> Result<Kept, Misfit>
        ensures { result ≡ judged_item self shift }
    {
        if !self.owned {
            return Err(Misfit::Lost);
        }
        if 32 <= self.items {
            return Err(Misfit::Passed);
        }
        if is_far(shift) {
            return Err(Misfit::Lost);
        }
        Ok(Kept {
            items: self.items + 1,
            ..self
        })
    }

    // What is kept after a line of this form, or what is wrong with the line; None is a line of no form.
    pub fn judge(self, form: Option<Form>) -> Result<Kept, Misfit>
        ensures { result ≡ judged self form }
    {
        match form {
            Some(Form::Param { level }) => self.param(level),
            Some(Form::Group { shift }) => self.group(shift),
            Some(Form::Item { shift }) => self.item(shift),
            None => Err(Misfit::Wrong),
        }
    }
}

// Is a shift over 7?
fn is_far(shift: u16) -> bool
    ensures { result ≡ far shift }
{
    7 < shift
}
