// A function that is generic over the number loads numbers of either type.
use crate::Loaded;

fn second<const N: usize, T: Loaded<N>>(input: &[u8]) -> T {
    T::load(input, N)
}

#[test]
fn numbers_of_either_type_are_loaded(rt: HostRuntime) {
    let input = [1, 2, 3, 4, 5, 6];
    assert_eq!(rt; second::<2, u16>(&input), 1027);
    assert_eq!(rt; second::<4, u32>(&input), 1541);
    assert_eq!(rt; u32::load(&input, 0), 67305985);
    assert_eq!(rt; u16::load(&input, 6), 0);
}
