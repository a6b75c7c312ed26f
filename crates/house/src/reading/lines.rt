ghost use Rattle.std.specs.Prelude.{◌≡◌};
ghost use Rattle.house.specs.Filling.{AddsParty, AddsAsk, Judges, AddsRule, AddsLine, TakesLine};

use super::Draft;
use super::body::Body;
use crate::entries::{MOST_BODY, Rule};
use book::{Fault, ItemParts, Line, Part, Reader};
use table::Table;

impl Draft<'_> {
    /// Enrols a party.
    fn add_party(&mut self, name: Part) -> Result<(), Fault>
        ensures adds { AddsParty self.old.text.now self.old.tables name result self.new.tables }
        ensures same_text { self.new.text ≡ self.old.text }
    {
        if name.length == 1 {
            return Err(Fault::OneLetter);
        }
        if self.party_named(name).is_some() {
            return Err(Fault::EnrolledBefore);
        }
        self.tables.parties.push(name).map_err(|_| Fault::TooMany)
    }

    /// Registers the asked item.
    fn add_ask(&mut self, item: ItemParts) -> Result<(), Fault>
        ensures adds { AddsAsk self.old.text.now self.old.tables item result self.new.tables }
        ensures same_text { self.new.text ≡ self.old.text }
    {
        if item.single {
            return Err(Fault::OneLetter);
        }
        if !self.enrols_ends(item) {
            return Err(Fault::NotEnrolled);
        }
        let number = self.register(item)?;
        if self.tables.asked.is_some() {
            return Err(Fault::SecondAsk);
        }
        self.tables.asked = Some(number);
        Ok(())
    }

    /// Judges the names of a rule: one letter, not enrolled, strange to the owner.
    fn judge(&self, head: ItemParts, body: Body<'_>) -> Result<(), Fault>
        ensures { Judges self.now.text.now self.now.tables head body.entry result }
    {
        let mut single = head.single;
        let mut enrolled = self.enrols_ends(head);
        let mut strange = false;
        for item in body {
            single |= item.single;
            enrolled &= self.enrols_ends(item);
            strange |= !self.concerns(head.source, item);
        }
        if single {
            return Err(Fault::OneLetter);
        }
        if !enrolled {
            return Err(Fault::NotEnrolled);
        }
        if strange {
            return Err(Fault::Strange);
        }
        Ok(())
    }

    /// Registers the items of a rule and puts it behind the others.
    fn add_rule(&mut self, head: ItemParts, body: Body<'_>) -> Result<(), Fault>
        ensures adds { AddsRule self.old.text.now self.old.tables head body.entry result self.new.tables }
        ensures same_text { self.new.text ≡ self.old.text }
    {
        self.judge(head, body)?;
        if body.count > MOST_BODY {
            return Err(Fault::TooMany);
        }
        let mut rule = Rule {
            head: self.register(head)?,
            body: Table::new(0),
        };
        for item in body {
            let number = self.register(item)?;
            if !rule.body.as_slice().contains(&number) {
                rule.body.push(number).map_err(|_| Fault::TooMany)?;
            }
        }
        self.tables.rules.push(rule).map_err(|_| Fault::TooMany)
    }

    /// Adds what a line says, or answers its smallest fault.
    fn add_line(&mut self, line: Line) -> Result<(), Fault>
        ensures adds { AddsLine self.old.text.now self.old.tables line result self.new.tables }
        ensures same_text { self.new.text ≡ self.old.text }
    {
        match line {
            Line::Party(name) => self.add_party(name),
            Line::Hold(head) => self.add_rule(head, Body::new(self.text, 0, 0)),
            Line::Rule { head, body, count } => {
                self.add_rule(head, Body::new(self.text, body, count))
            }
            Line::Ask(item) => self.add_ask(item),
        }
    }

    /// Reads the line at the reader's place and adds what it says, or answers its smallest fault.
    pub(super) fn next_line(&mut self, reader: &mut Reader<'_>) -> Result<(), Fault>
        ensures takes { TakesLine self.old.text.now self.old.tables reader.old result self.new.tables reader.new }
        ensures same_text { self.new.text ≡ self.old.text }
    {
        let line = reader.line()?;
        self.add_line(line)
    }
}
