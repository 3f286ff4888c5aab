// The smallest steps of reading a text: a word, a byte that is seen and not taken, a number, the end of a line. Each moves the reader behind what it took, or says which line is bad.
ghost use Rattle.std.specs.Prelude.{◌≡◌, ◌∷◌, ◌≤◌, Ok, Err, IfOk};
ghost use Rattle.bits.specs.Language.{pick};
ghost use Rattle.catalogue.specs.Scan.{digits, numeral, word, peek, number, end_line};
ghost use Rattle.catalogue.specs.Back.{value};
ghost use Rattle.catalogue.specs.Parts.{Behind, came, told, runs};

use crate::{BadLine, Reader};

impl<'a> Reader<'a> {
    // The reader behind a word, if it stands here.
    pub fn behind(&self, w: &[u8]) -> Option<Reader<'a>>
        ensures { Behind w.now self.now result }
    {
        let rest = self.rest.strip_prefix(w)?;
        Some(Reader {
            rest,
            line: self.line,
        })
    }

    // The line here is bad, unless a test holds.
    pub fn check(&self, holds: bool) -> Result<(), BadLine>
        ensures { result ≡ pick holds (Ok tt) (Err (record { line = self.now.line })) }
    {
        if holds {
            Ok(())
        } else {
            Err(BadLine { line: self.line })
        }
    }

    #[tactic(auto, unfolding(crate::specs::Scan::run))]
    pub fn take_word(&mut self, w: &[u8]) -> Result<(), BadLine>
        ensures { came (λ v. v) result self.new ≡ runs self.old (word w.now) }
    {
        let Some(next) = self.behind(w) else {
            return self.check(false);
        };
        *self = next;
        Ok(())
    }

    #[tactic(auto, unfolding(crate::specs::Scan::run))]
    pub fn see(&self, b: u8) -> Result<(), BadLine>
        ensures { came (λ v. v) result self.now ≡ runs self.now (peek b) }
    {
        self.check(self.rest.first() == Some(&b))
    }

    #[tactic(auto, unfolding(crate::specs::Scan::run))]
    pub fn take_end(&mut self) -> Result<(), BadLine>
        ensures { came (λ v. v) result self.new ≡ runs self.old end_line }
    {
        let Some((first, rest)) = self.rest.split_first() else {
            return self.check(false);
        };
        self.check(*first == b'\n')?;
        self.rest = rest;
        self.line = self.line.saturating_add(1);
        Ok(())
    }

    // Digits, as far as there are any.
    #[tactic(auto, unfolding(crate::specs::Scan::digits))]
    fn take_digits(&mut self, most: u64) -> Result<u64, BadLine>
        requires { most ≤ 4294967295 }
        ensures value { came (λ v. v) result self.new ≡ told self.old.line (digits most 0 self.old.rest.now) }
        ensures within { IfOk result (λ v. v ≤ most) }
    {
        let mut value: u64 = 0;
        while let Some((b, rest)) = self.rest.split_first() {
            if !b.is_ascii_digit() {
                return Ok(value);
            }
            let more = 10 * value + (*b - b'0') as u64;
            self.check(more <= most)?;
            value = more;
            self.rest = rest;
        }
        Ok(value)
    }

    // A number that begins with 0 is 0.
    #[tactic(auto, unfolding(crate::specs::Scan::numeral))]
    fn take_numeral(&mut self, most: u64) -> Result<u64, BadLine>
        requires { most ≤ 4294967295 }
        ensures value { came (λ v. v) result self.new ≡ told self.old.line (numeral most self.old.rest.now) }
        ensures within { IfOk result (λ v. v ≤ most) }
    {
        let Some((first, rest)) = self.rest.split_first() else {
            return Err(BadLine { line: self.line });
        };
        self.check(first.is_ascii_digit())?;
        if *first == b'0' {
            self.rest = rest;
            return Ok(0);
        }
        self.take_digits(most)
    }

    #[tactic(auto, unfolding(crate::specs::Scan::run))]
    pub fn take_number(&mut self, least: u64, most: u64) -> Result<u64, BadLine>
        requires { most ≤ 4294967295 }
        ensures value { came (λ v. v) result self.new ≡ runs self.old (number least most) }
        ensures within { IfOk result (λ v. v ≤ most) }
    {
        let v = self.take_numeral(most)?;
        self.check(least <= v)?;
        Ok(v)
    }

    // A key and its number.
    #[tactic(auto, unfolding(crate::specs::Scan::run))]
    pub fn take_value(&mut self, key: &[u8], least: u64, most: u64) -> Result<u64, BadLine>
        requires { most ≤ 4294967295 }
        ensures value { came (λ v. v) result self.new ≡ runs self.old (value key.now least most) }
        ensures within { IfOk result (λ v. v ≤ most) }
    {
        self.take_word(key)?;
        self.take_number(least, most)
    }
}
