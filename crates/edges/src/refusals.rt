use network::Refusal;

#[test]
fn numbers(rt: HostRuntime) {
    for (refusal, number) in [
        (Refusal::Ends, 1),
        (Refusal::Edition, 2),
        (Refusal::UnknownScale, 3),
        (Refusal::Size, 4),
        (Refusal::Bit, 5),
        (Refusal::Coefficient, 6),
        (Refusal::Window, 7),
        (Refusal::Crossed, 8),
        (Refusal::Extra, 9),
        (Refusal::Place, 10),
        (Refusal::Direction, 11),
        (Refusal::Lengths, 12),
        (Refusal::Impossible, 13),
        (Refusal::NotInStep, 14),
        (Refusal::Buffer, 15),
    ] {
        assert_eq!(rt; refusal.number(), number);
    }
}
