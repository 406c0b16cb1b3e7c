// Labels on values worked out by hand.
#![tactic(auto)]

#[cfg(test)]
mod tests {
    use labels::LabelKind;
    use labels::dated::Dated;
    use strips::{Strip, same_date};

    #[test]
    fn dated_numbers(rt: HostRuntime) {
        assert_eq!(rt; Dated::unknown().value(), 0);
        assert_eq!(rt; Dated::true_from(1).value(), 256);
        assert_eq!(rt; Dated::true_from(256).value(), 1);
        assert_eq!(rt; Dated::true_from(257).value(), 0);
        assert_eq!(rt; Dated::false_from(1).value(), -256);
        assert_eq!(rt; Dated::false_from(3).value(), -254);
        assert_eq!(rt; Dated::true_from(2).not().value(), -255);
    }

    #[test]
    fn dated_operations(rt: HostRuntime) {
        let early = Dated::true_from(2);
        let late = Dated::true_from(7);
        assert_eq!(rt; early.and(late).value(), 250);
        assert_eq!(rt; early.or(late).value(), 255);
        assert_eq!(rt; early.and(Dated::false_from(4)).value(), -253);
        assert_eq!(rt; early.seen_from(5).value(), 252);
        assert_eq!(rt; Dated::false_from(2).seen_from(5).value(), -252);
        assert_eq!(rt; late.seen_from(5).value(), 250);
    }

    #[test]
    fn dates(rt: HostRuntime) {
        assert_eq!(rt; Dated::true_from(4).date_of_truth(), 4);
        assert_eq!(rt; Dated::true_from(4).date_of_falsehood(), 0);
        assert_eq!(rt; Dated::false_from(9).date_of_falsehood(), 9);
        assert_eq!(rt; Strip::true_from(64).date_of_truth(), 64);
        assert_eq!(rt; Strip::true_from(65).date_of_truth(), 0);
        assert!(rt; same_date(Dated::true_from(4), Strip::true_from(4)));
        assert!(rt; !same_date(Dated::true_from(65), Strip::true_from(64)));
    }

    #[test]
    fn strip_readings(rt: HostRuntime) {
        let label = Strip::true_from(3).and(Strip::false_from(5));
        assert!(rt; label.read(true, 4) && !label.read(false, 4));
        assert!(rt; !label.read(true, 5) && !label.read(true, 64));
        let later = label.not().seen_from(8);
        assert!(rt; later.read(true, 7) && !later.read(false, 7));
        assert!(rt; later.read(false, 8) && later.or(label).read(false, 64));
        assert!(rt; later.read(true, 65) && !later.read(false, 65) && !later.read(false, 0));
    }
}
