// A year of few traders, with their lists.
use crate::chances::Chance;
use std::alloc::{AllocError, Global};
use std::iter::once;

// How often a stand is drawn for a random list.
const DRAWS: u8 = 16;

#[derive(Drop)]
pub struct Year {
    lists: Vec<Vec<u16>>,
}

impl Year {
    // The year with these lists.
    pub(crate) fn of(heap: Global, lists: &[&[u16]]) -> Result<Year, AllocError> {
        let lists = lists
            .iter()
            .map(|list| Vec::from_slice(heap, list))
            .try_collect(heap)?;
        Ok(Year { lists })
    }

    // A year of that many traders with random lists.
    pub(crate) fn random(
        heap: Global,
        traders: u16,
        chance: &mut Chance,
    ) -> Result<Year, AllocError> {
        let lists = (0..traders)
            .map(|own| random_list(heap, traders, own, chance))
            .try_collect(heap)?;
        Ok(Year { lists })
    }

    // The year in which a trader hands in another list.
    pub(crate) fn with_list(&self, trader: u16, other: Vec<u16>) -> Result<Year, AllocError> {
        let mut lists = self.lists.clone()?;
        if let Some(list) = lists.get_mut(trader as usize) {
            *list = other;
        }
        Ok(Year { lists })
    }

    pub(crate) fn traders(&self) -> u16 {
        u16::try_from(self.lists.len()).unwrap_or(u16::MAX)
    }

    pub(crate) fn list(&self, trader: u16) -> &[u16] {
        self.lists
            .get(trader as usize)
            .map_or(&[], |list| list.as_slice())
    }

    // How many stands are dearer to a trader than one that is listed or its own; the highest number for all others.
    pub(crate) fn rank(&self, trader: u16, stand: u16) -> usize {
        self.list(trader)
            .iter()
            .chain(once(&trader))
            .position(|dear| *dear == stand)
            .unwrap_or(usize::MAX)
    }

    // The bytes of a trader's list by itself.
    pub(crate) fn list_bytes(&self, heap: Global, trader: u16) -> Result<Vec<u8>, AllocError> {
        let mut bytes = Vec::new(heap);
        push_list(&mut bytes, self.list(trader))?;
        Ok(bytes)
    }

    // The bytes of the year.
    pub(crate) fn bytes(&self, heap: Global) -> Result<Vec<u8>, AllocError> {
        let mut bytes = Vec::from_slice(heap, &self.traders().to_le_bytes())?;
        for list in &self.lists {
            push_list(&mut bytes, list)?;
        }
        Ok(bytes)
    }
}

// Adds the bytes of a list: its count and its stands.
fn push_list(bytes: &mut Vec<u8>, list: &[u16]) -> Result<(), AllocError> {
    bytes.push(u8::try_from(list.len()).unwrap_or(u8::MAX))?;
    for stand in list {
        bytes.extend_from_slice(&stand.to_le_bytes())?;
    }
    Ok(())
}

// A random list. Of two stands drawn the lower one counts, so that some stands are wanted by many.
fn random_list(
    heap: Global,
    traders: u16,
    own: u16,
    chance: &mut Chance,
) -> Result<Vec<u16>, AllocError> {
    let mut list = Vec::new(heap);
    let most = chance.below(traders) as usize;
    for _ in 0..DRAWS {
        let stand = chance.below(traders).min(chance.below(traders));
        if list.len() < most && stand != own && !list.contains(&stand) {
            list.push(stand)?;
        }
    }
    Ok(list)
}

// Every list that a trader could hand in: all ways to name some of the other stands in some order.
pub(crate) fn all_lists(heap: Global, traders: u16, own: u16) -> Result<Vec<Vec<u16>>, AllocError> {
    let others: Vec<u16> = (0..traders).filter(|stand| *stand != own).collect(heap)?;
    let mut all = Vec::new(heap);
    let mut longest = vec![in heap; Vec::new(heap)]?;
    for _ in 0..traders {
        let longer = longer_lists(heap, &longest, &others)?;
        all.append(&mut longest)?;
        longest = longer;
    }
    Ok(all)
}

// Each of the lists with one more of the stands at its end, where that is not listed already.
fn longer_lists(
    heap: Global,
    lists: &[Vec<u16>],
    stands: &[u16],
) -> Result<Vec<Vec<u16>>, AllocError> {
    let mut all = Vec::new(heap);
    for list in lists {
        for stand in stands.iter().filter(|&stand| !list.contains(stand)) {
            let mut longer = list.clone()?;
            longer.push(*stand)?;
            all.push(longer)?;
        }
    }
    Ok(all)
}
