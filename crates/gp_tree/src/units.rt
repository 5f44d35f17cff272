// The 16-bit units of a string, one at a time.
ghost use Rattle.std.specs.Prelude.{◌≡◌, ◌≤◌, ◌-◌, ◌∷◌, [], None, MatchOption};
ghost use Rattle.std.specs.Str.{chars};
ghost use Rattle.std.specs.Char.{digit_value as value_of_digit};
ghost use Rattle.gp_tree.specs.Key.{escaped_unit as unit_escaped, units, units_from, after_backslash, hex};
ghost use Rattle.gp_tree.specs.Units.{units_left, IsNextChar, IsNextUnit, TakesChar, TakesDigit};

// What is left of a string: its bytes, and before them the second half of a pair.
#[derive(Drop)]
pub(crate) struct Units<'a> {
    half: Option<u32>,
    rest: &'a [u8],
}

impl<'a> Units<'a> {
    pub(crate) fn new(spelling: &'a [u8]) -> Units<'a>
        ensures { units_left result ≡ units spelling.now }
    {
        Units {
            half: None,
            rest: spelling,
        }
    }

    // Takes the next unit.
    pub(crate) fn next(&mut self) -> Option<u32>
        ensures { IsNextUnit (units_left self.old) result (units_left self.new) }
    {
        if let Some(half) = self.half {
            self.half = None;
            return Some(half);
        }
        let c = self.take_char()?;
        if c == 92 {
            return self.escaped();
        }
        if c < 0x1_0000 {
            return Some(c);
        }
        let over = c - 0x1_0000;
        self.half = Some(0xDC00 + over % 0x400);
        Some(0xD800 + over / 0x400)
    }

    // Takes the unit that is spelled behind a backslash.
    fn escaped(&mut self) -> Option<u32>
        requires { self.old.half ≡ None }
        ensures { IsNextUnit (units_from after_backslash (chars self.old.rest.now)) result (units_left self.new) }
    {
        let c = self.take_char()?;
        if c == 117 {
            return self.hex();
        }
        Some(escaped_unit(c))
    }

    // Takes the unit that four hex digits spell.
    fn hex(&mut self) -> Option<u32>
        requires { self.old.half ≡ None }
        ensures { IsNextUnit (units_from (hex 3 0) (chars self.old.rest.now)) result (units_left self.new) }
    {
        let p = self.take_digit()?;
        let q = self.take_digit()?;
        let r = self.take_digit()?;
        let s = self.take_digit()?;
        Some(((p * 16 + q) * 16 + r) * 16 + s)
    }

    // Takes a character, as the value of a digit.
    fn take_digit(&mut self) -> Option<u32>
        ensures half { self.new.half ≡ self.old.half }
        ensures digit { TakesDigit self.old.rest.now result self.new.rest.now }
    {
        let c = self.take_char()?;
        Some(digit_value(c))
    }

    // Takes a character.
    fn take_char(&mut self) -> Option<u32>
        ensures half { self.new.half ≡ self.old.half }
        ensures char { TakesChar self.old.rest.now result self.new.rest.now }
    {
        let (c, n) = first_char(self.rest)?;
        self.rest = &self.rest[n..];
        Some(c)
    }
}

// The unit of a character behind a backslash.
fn escaped_unit(c: u32) -> u32
    ensures { result ≡ unit_escaped c }
{
    match c {
        98 => 8,
        102 => 12,
        110 => 10,
        114 => 13,
        116 => 9,
        _ => c,
    }
}

fn digit_value(c: u32) -> u32
    ensures value { result ≡ value_of_digit c }
    ensures small { result ≤ 36 }
{
    if c < 48 {
        36
    } else if c < 58 {
        c - 48
    } else if c < 65 {
        36
    } else if c < 91 {
        c - 55
    } else if c < 97 {
        36
    } else if c < 123 {
        c - 87
    } else {
        36
    }
}

// The character in front, and how many bytes spell it.
fn first_char(text: &[u8]) -> Option<(u32, usize)>
    ensures { MatchOption result (chars text.now ≡ []) (λ p. IsNextChar text.now p.0 p.1) }
{
    if text.is_empty() {
        return None;
    }
    let lead = text[0] as u32;
    if lead < 128 {
        return Some((lead, 1));
    }
    if lead < 224 {
        if text.len() < 2 {
            return None;
        }
        let high = lead.saturating_sub(192);
        return Some((high * 64 + tail_bits(text[1]), 2));
    }
    if lead < 240 {
        if text.len() < 3 {
            return None;
        }
        let high = (lead - 224) * 64 + tail_bits(text[1]);
        return Some((high * 64 + tail_bits(text[2]), 3));
    }
    if text.len() < 4 {
        return None;
    }
    let high = ((lead - 240) * 64 + tail_bits(text[1])) * 64 + tail_bits(text[2]);
    Some((high * 64 + tail_bits(text[3]), 4))
}

// The bits that a byte behind the first adds to a character.
fn tail_bits(byte: u8) -> u32
    ensures { result ≡ byte - 128 }
{
    (byte as u32).saturating_sub(128)
}
