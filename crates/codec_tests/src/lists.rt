//! Items that are added to a `Listed` keep their order.
use wire_bytes::Listed;

#[test]
fn items_stand_in_the_order_they_came(rt: HostRuntime) {
    let mut list = Listed::new(rt.alloc());
    let was_empty = list.is_empty();
    let are_added = list.push(7u32).is_ok() && list.push(9).is_ok();
    let has_two = !list.is_empty() && list.len() == 2;
    let mut items = list.into_vec();
    let is_added = items.push(11).is_ok();
    let list = Listed::from_vec(items);
    let same = list.as_slice() == [7, 9, 11].as_slice();
    drop(list);
    assert!(rt; was_empty && are_added && has_two && is_added && same);
}
