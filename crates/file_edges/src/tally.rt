// How many answers are those expected.
use crate::cases::{Refusal, Told};
use files::FileFault;
use listing::list;

#[derive(Drop)]
pub(crate) struct Tally<'a> {
    rt: &'a HostRuntime,
    agreed: usize,
}

impl<'a> Tally<'a> {
    pub(crate) fn new(rt: &'a HostRuntime) -> Tally<'a> {
        Tally { rt, agreed: 0 }
    }

    pub(crate) fn agreed(&self) -> usize {
        self.agreed
    }

    fn count(&mut self) {
        self.agreed = self.agreed.saturating_add(1);
    }

    // Counts an answer that is the one expected, and prints any other.
    pub(crate) fn expect<T: Drop>(
        &mut self,
        name: &str,
        answer: Result<T, FileFault>,
        expected: Told,
    ) -> anyhow::Result<()> {
        let found = answer.map(|_| ()).map_err(Refusal::from);
        if found == expected {
            self.count();
        } else {
            println!(self.rt; "{name}: {found:?}, not {expected:?}")?;
        }
        Ok(())
    }

    // The same of a listing.
    pub(crate) fn expect_listed(
        &mut self,
        name: &str,
        input: &[u8],
        expected: &[u8],
    ) -> anyhow::Result<()> {
        let mut place = [0u8; 16384];
        let used = list(input, &mut place);
        if &place[..used] == expected {
            self.count();
        } else {
            println!(self.rt; "{name}: listed otherwise")?;
        }
        Ok(())
    }
}
