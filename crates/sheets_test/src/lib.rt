#![tactic(auto)]
// Tests of the order sheets: one body for every sheet.
#[cfg(test)]
mod tests {
    use market::{Kind, Order, Priority, Side};
    use sheets::{ArrivalSheet, OrderSheet, PrioritySheet, SideFull};
    use std::process::Abort;
    use std::test::Fail;

    fn limit(number: u32, side: Side, price: u32, rank: u32) -> Order {
        Order {
            number,
            side,
            kind: Kind::Limit,
            price,
            rank,
            quantity: 10,
            account: [7; 8],
        }
    }

    fn market(number: u32, side: Side, rank: u32) -> Order {
        Order {
            kind: Kind::Market,
            price: 0,
            ..limit(number, side, 0, rank)
        }
    }

    // Every question to a sheet without orders, and a take.
    fn is_empty<S: OrderSheet>(rt: &impl Abort, sheet: &mut S) {
        assert_eq!(rt; sheet.count(), 0);
        for number in [0, 1, 7, u32::MAX] {
            assert_eq!(rt; sheet.find(number), None);
            assert_eq!(rt; sheet.take(number), None);
        }
        for side in [Side::Buy, Side::Offer] {
            assert_eq!(rt; sheet.next(side, None), None);
            assert_eq!(rt; sheet.next(side, Some(market(0, side, 0).priority())), None);
        }
        assert_eq!(rt; sheet.count(), 0);
    }

    // A put that is accepted.
    fn puts<S: OrderSheet>(rt: &impl Abort, sheet: &mut S, order: Order) {
        assert_eq!(rt; sheet.put(order), Ok(()));
        assert_eq!(rt; sheet.find(order.number), Some(order));
    }

    // A put that is refused, and leaves the sheet as it was.
    fn refuses<S: OrderSheet>(rt: &impl Abort, sheet: &mut S, order: Order) {
        let before = sheet.find(order.number);
        let count = sheet.count();
        assert_eq!(rt; sheet.put(order), Err(SideFull));
        assert_eq!(rt; sheet.find(order.number), before);
        assert_eq!(rt; sheet.count(), count);
    }

    // Both sides filled to the last place, and emptied again.
    fn fills<S: OrderSheet>(rt: &impl Abort, sheet: &mut S, capacity: u32) {
        assert!(rt; capacity <= 2_048);
        for i in 0..capacity {
            puts(rt, sheet, limit(2 * i + 1, Side::Buy, 100, i));
            puts(rt, sheet, limit(2 * i + 2, Side::Offer, 100, i));
            assert_eq!(rt; sheet.count(), 2 * i as usize + 2);
        }
        refuses(rt, sheet, market(9_999, Side::Buy, 0));
        refuses(rt, sheet, market(9_999, Side::Offer, 0));
        if capacity > 0 {
            replaces_when_full(rt, sheet);
        }
        assert_eq!(rt; sheet.count(), 2 * capacity as usize);
        for i in 0..capacity {
            assert_eq!(rt;
                sheet.take(2 * i + 1),
                Some(limit(2 * i + 1, Side::Buy, 100, i))
            );
            assert_eq!(rt; sheet.take(2 * i + 1), None);
            assert_eq!(rt;
                sheet.take(2 * i + 2),
                Some(limit(2 * i + 2, Side::Offer, 100, i))
            );
        }
        is_empty(rt, sheet);
    }

    // Both sides are full, order 1 is a buy and order 2 an offer: a number keeps its place on its own
    // side, and needs one on the other.
    fn replaces_when_full<S: OrderSheet>(rt: &impl Abort, sheet: &mut S) {
        puts(rt, sheet, limit(1, Side::Buy, 101, 9));
        assert_eq!(rt;
            sheet.next(Side::Buy, None),
            Some(limit(1, Side::Buy, 101, 9))
        );
        refuses(rt, sheet, limit(1, Side::Offer, 101, 9));
        assert_eq!(rt; sheet.take(2), Some(limit(2, Side::Offer, 100, 0)));
        puts(rt, sheet, market(1, Side::Offer, 9));
        assert_eq!(rt;
            sheet.next(Side::Offer, None),
            Some(market(1, Side::Offer, 9))
        );
        refuses(rt, sheet, limit(2, Side::Offer, 100, 0));
        puts(rt, sheet, limit(1, Side::Buy, 100, 0));
        puts(rt, sheet, limit(2, Side::Offer, 100, 0));
    }

    // Six orders a side, put in no order: market among limit orders, equal prices, equal ranks.
    fn ranks<S: OrderSheet>(rt: &impl Abort, sheet: &mut S) -> Result<(), Fail> {
        for (side, n) in [(Side::Buy, 0), (Side::Offer, 10)] {
            for order in [
                limit(n + 5, side, 100, 9),
                limit(n + 3, side, 100, 4),
                market(n + 8, side, 7),
                limit(n + 2, side, 102, 12),
                limit(n + 4, side, 100, 4),
                market(n + 1, side, 2),
            ] {
                puts(rt, sheet, order);
            }
        }
        assert_eq!(rt; sheet.count(), 12);
        walks(rt, sheet, Side::Buy, [1, 8, 2, 3, 4, 5])?;
        walks(rt, sheet, Side::Offer, [11, 18, 13, 14, 15, 12])?;
        steps_between(rt, sheet);
        moves(rt, sheet)?;
        for number in [1, 2, 3, 4, 5, 8, 11, 12, 13, 14, 15, 18] {
            assert!(rt; sheet.take(number).is_some());
        }
        is_empty(rt, sheet);
        Ok(())
    }

    // Replacements take their new place, on their own side and on the other.
    fn moves<S: OrderSheet>(rt: &impl Abort, sheet: &mut S) -> Result<(), Fail> {
        puts(rt, sheet, limit(5, Side::Buy, 103, 20));
        walks(rt, sheet, Side::Buy, [1, 8, 5, 2, 3, 4])?;
        assert_eq!(rt; sheet.take(15), Some(limit(15, Side::Offer, 100, 9)));
        puts(rt, sheet, limit(8, Side::Offer, 100, 4));
        puts(rt, sheet, market(15, Side::Buy, 1));
        assert_eq!(rt; sheet.count(), 12);
        walks(rt, sheet, Side::Buy, [15, 1, 5, 2, 3, 4])?;
        walks(rt, sheet, Side::Offer, [11, 18, 8, 13, 14, 12])
    }

    // A side from its first order to its last.
    fn walks<S: OrderSheet>(
        rt: &impl Abort,
        sheet: &S,
        side: Side,
        numbers: [u32; 6],
    ) -> Result<(), Fail> {
        let mut behind = None;
        for number in numbers {
            let order = sheet.next(side, behind).ok_or("the side has ended")?;
            assert_eq!(rt; order.number, number);
            assert_eq!(rt; sheet.find(number), Some(order));
            behind = Some(order.priority());
        }
        assert_eq!(rt; sheet.next(side, behind), None);
        Ok(())
    }

    // A side, a priority, and the number of the next order behind it among those of `ranks`: before,
    // at, between and past those that stand.
    const STEPS: [(Side, Kind, u32, u32, u32, Option<u32>); 26] = [
        (Side::Buy, Kind::Market, 0, 1, 99, Some(1)),
        (Side::Buy, Kind::Market, 0, 2, 0, Some(1)),
        (Side::Buy, Kind::Market, 0, 2, 1, Some(8)),
        (Side::Buy, Kind::Market, 0, 3, 0, Some(8)),
        (Side::Buy, Kind::Market, 0, 7, 8, Some(2)),
        (Side::Buy, Kind::Limit, 103, 99, 99, Some(2)),
        (Side::Buy, Kind::Limit, 102, 12, 1, Some(2)),
        (Side::Buy, Kind::Limit, 102, 12, 2, Some(3)),
        (Side::Buy, Kind::Limit, 101, 0, 0, Some(3)),
        (Side::Buy, Kind::Limit, 100, 3, 99, Some(3)),
        (Side::Buy, Kind::Limit, 100, 4, 3, Some(4)),
        (Side::Buy, Kind::Limit, 100, 4, 4, Some(5)),
        (Side::Buy, Kind::Limit, 100, 9, 4, Some(5)),
        (Side::Buy, Kind::Limit, 100, 9, 5, None),
        (Side::Buy, Kind::Limit, 99, 0, 0, None),
        (Side::Offer, Kind::Market, 0, 2, 10, Some(11)),
        (Side::Offer, Kind::Market, 0, 2, 11, Some(18)),
        (Side::Offer, Kind::Market, 0, 8, 0, Some(13)),
        (Side::Offer, Kind::Limit, 99, 99, 99, Some(13)),
        (Side::Offer, Kind::Limit, 100, 4, 13, Some(14)),
        (Side::Offer, Kind::Limit, 100, 4, 14, Some(15)),
        (Side::Offer, Kind::Limit, 100, 9, 15, Some(12)),
        (Side::Offer, Kind::Limit, 101, 0, 0, Some(12)),
        (Side::Offer, Kind::Limit, 102, 12, 11, Some(12)),
        (Side::Offer, Kind::Limit, 102, 12, 12, None),
        (Side::Offer, Kind::Limit, 103, 0, 0, None),
    ];

    fn steps_between<S: OrderSheet>(rt: &impl Abort, sheet: &S) {
        for (side, kind, price, rank, number, expected) in STEPS {
            let at = Priority {
                kind,
                price,
                rank,
                number,
            };
            let found = sheet.next(side, Some(at)).map(|order| order.number);
            assert_eq!(rt; found, expected);
        }
    }

    // What every sheet of that capacity does.
    fn exercise<S: OrderSheet>(rt: &impl Abort, sheet: &mut S, capacity: u32) -> Result<(), Fail> {
        is_empty(rt, sheet);
        fills(rt, sheet, capacity);
        if capacity >= 6 {
            ranks(rt, sheet)?;
        }
        Ok(())
    }

    // What lies in the rows at first, and is no order of the sheet.
    fn junk() -> Order {
        limit(7, Side::Buy, 1, 1)
    }

    // A priority sheet over that many rows a side.
    fn by_lists(
        rt: &impl Abort,
        buys: &mut [Order],
        offers: &mut [Order],
        sizes: (usize, usize),
        capacity: u32,
    ) -> Result<(), Fail> {
        let (b, a) = sizes;
        assert!(rt; b <= buys.len());
        assert!(rt; a <= offers.len());
        let mut sheet = PrioritySheet::new(&mut buys[0..b], &mut offers[0..a]);
        exercise(rt, &mut sheet, capacity)
    }

    // An arrival sheet over that many rows.
    fn by_rows(
        rt: &impl Abort,
        rows: &mut [Order],
        size: usize,
        capacity: u32,
    ) -> Result<(), Fail> {
        assert!(rt; size <= rows.len());
        let mut sheet = ArrivalSheet::new(&mut rows[0..size]);
        exercise(rt, &mut sheet, capacity)
    }

    #[test]
    fn by_priority(rt: HostRuntime) -> Result<(), Fail> {
        let buys: &mut [Order] = &mut [junk(); 2_050];
        let offers: &mut [Order] = &mut [junk(); 2_050];
        for (sizes, capacity) in [
            ((0, 0), 0),
            ((0, 9), 0),
            ((1, 4), 1),
            ((5, 2), 2),
            ((7, 6), 6),
            ((2_047, 2_048), 2_047),
            ((2_048, 2_048), 2_048),
            ((2_049, 2_050), 2_048),
        ] {
            by_lists(&rt, buys, offers, sizes, capacity)?;
        }
        Ok(())
    }

    #[test]
    fn by_arrival(rt: HostRuntime) -> Result<(), Fail> {
        let rows: &mut [Order] = &mut [junk(); 4_100];
        for (size, capacity) in [
            (0, 0),
            (1, 0),
            (2, 1),
            (3, 1),
            (5, 2),
            (13, 6),
            (4_095, 2_047),
            (4_096, 2_048),
            (4_097, 2_048),
            (4_100, 2_048),
        ] {
            by_rows(&rt, rows, size, capacity)?;
        }
        Ok(())
    }
}
