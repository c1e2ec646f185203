use std::test::Fail;
use xs_lists::Listed;

#[test]
fn lists_are_filled_and_read(rt: HostRuntime) -> Result<(), Fail> {
    let alloc = rt.alloc();
    let mut words = Listed::new(alloc);
    assert!(rt; words.is_empty());
    words.push("one")?;
    words.push("two")?;
    words.push("three")?;
    assert_eq!(rt; words.pop(), Some("three"));
    assert_eq!(rt; words.len(), 2);
    assert_eq!(rt; words.get(1), Some(&"two"));
    assert_eq!(rt; words.get(2), None);
    if let Some(word) = words.get_mut(0) {
        *word = "four";
    }
    let copy = words.clone()?;
    assert!(rt; copy == words);
    let mut lengths = 0usize;
    for word in &copy {
        lengths = lengths.saturating_add(word.len());
    }
    assert_eq!(rt; lengths, 7);
    words.as_mut_slice().reverse();
    assert!(rt; copy != words);
    assert_eq!(rt; words.as_slice().first(), Some(&"two"));
    let numbers = Listed::from_vec(vec![in alloc; 1u32, 2]?);
    assert_eq!(rt; numbers.into_vec().len(), 2);
    Ok(())
}
