use ov_ids::OutOfMemory;
use ov_lists::BlockList;
use std::alloc::Global;

/// A text of the number: an item that owns memory.
fn text(alloc: Global, number: u32) -> Result<String, OutOfMemory> {
    Ok(format!(in alloc; "{number}")?)
}

/// The list has three items, and this is the one in the middle.
fn has_in_the_middle(list: &BlockList<String>, item: &str) -> bool {
    let Some(middle) = list.get(1) else {
        return false;
    };
    list.len() == 3 && middle.as_str() == item && list.iter().count() == 3
}

#[test]
fn its_items_may_own_memory(rt: HostRuntime) -> Result<(), OutOfMemory> {
    let mut list = BlockList::new(rt.alloc());
    assert!(&rt; list.is_empty() && list.get(0).is_none());
    list.reserve(3)?;
    list.push_reserved(text(rt.alloc(), 5)?);
    let mut more = Vec::new(rt.alloc());
    more.push(text(rt.alloc(), 6)?)?;
    more.push(text(rt.alloc(), 7)?)?;
    assert!(&rt; more.len() == 2);
    list.append_reserved(more);
    assert!(&rt; has_in_the_middle(&list, "6"));
    let item = list.remove(1);
    assert!(&rt; item.as_str() == "6" && list.len() == 2);
    assert!(&rt; list.reserve(usize::MAX).is_err() && list.len() == 2);
    Ok(())
}
