// Helpers that other crates may call, called by public names alone, as a crate outside this repository would. There is no code but tests.
#![tactic(auto)]

#[cfg(test)]
mod tests {
    use model::Rule;
    use random::Random;
    use reader::finding::check_each;
    use words::bytes::store;

    // A type of values of which none is the default.
    #[derive(Clone, Copy, PartialEq, Eq, Debug)]
    enum Light {
        Red,
        Amber,
        Green,
    }

    #[test]
    fn picks_one_of_the_values(rt: HostRuntime) {
        // The generator's numbers from 1 on: 270369, 67634689, 2647435461.
        let mut random = Random::new(1);
        let lights = [Light::Red, Light::Amber, Light::Green];
        assert_eq!(rt; random.pick(&lights), Light::Red);
        assert_eq!(rt; random.pick(&lights), Light::Amber);
        assert_eq!(rt; random.pick(&lights), Light::Red);
        assert_eq!(rt; random.pick(&[Light::Green]), Light::Green);
    }

    #[test]
    fn picks_the_default_of_none(rt: HostRuntime) {
        let mut random = Random::new(1);
        let none: [u8; 0] = [];
        assert_eq!(rt; random.pick_or_default(&none), 0);
        assert_eq!(rt; random.pick_or_default(&[7u8, 8, 9]), 7);
        assert_eq!(rt; random.pick_or_default(&[7u8, 8, 9]), 8);
    }

    #[test]
    fn blames_the_first_index(rt: HostRuntime) {
        let kept = [true, false, true, false];
        let blamed = |n: u32| {
            let found = check_each(n, Rule::BadTarget, |i| kept[i as usize]);
            found
                .err()
                .map(|refusal| (u32::from(refusal.rule), refusal.place))
        };
        assert_eq!(rt; blamed(0), None);
        assert_eq!(rt; blamed(1), None);
        assert_eq!(rt; blamed(4), Some((7, 1)));
    }

    #[test]
    fn stores_the_low_bytes(rt: HostRuntime) {
        let mut bytes = [9u8; 6];
        store::<4>(&mut bytes, 1, 0x1234_5678);
        assert_eq!(rt; bytes, [9, 0x78, 0x56, 0x34, 0x12, 9]);
        store::<2>(&mut bytes, 0, 0xABCD);
        assert_eq!(rt; bytes, [0xCD, 0xAB, 0x56, 0x34, 0x12, 9]);
        store::<0>(&mut bytes, 3, 0xFFFF_FFFF);
        assert_eq!(rt; bytes, [0xCD, 0xAB, 0x56, 0x34, 0x12, 9]);
    }

    #[test]
    fn stores_what_lies_within(rt: HostRuntime) {
        let mut bytes = [9u8; 6];
        store::<4>(&mut bytes, 4, 0x1234_5678);
        assert_eq!(rt; bytes, [9, 9, 9, 9, 0x78, 0x56]);
        store::<4>(&mut bytes, 6, 0);
        store::<4>(&mut bytes, usize::MAX, 0);
        assert_eq!(rt; bytes, [9, 9, 9, 9, 0x78, 0x56]);
        store::<5>(&mut bytes, 1, 0xFFFF_FFFF);
        assert_eq!(rt; bytes, [9, 0xFF, 0xFF, 0xFF, 0xFF, 0]);
    }
}
