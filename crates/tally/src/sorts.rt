// The blocks of a leaf, counted by their sorts.
ghost use Rattle.std.specs.Prelude.{◌≡◌, ◌<◌, IfSome};
ghost use Rattle.std.proofs.Props.{props};
ghost use Rattle.rom.specs.Geometry.{none};

use block::Block;

// The blocks of each sort, and the number of the first that is a default.
#[derive(Clone, Copy)]
pub struct Tally {
    pub listed: u8,
    pub resets: u8,
    pub skipped: u8,
    pub power: u8,
    pub phy_resets: u8,
    pub defaults: u8,
    pub default_number: Option<u8>,
    // It is the number of a block, and so below `none`.
    pub ghost default_bound: { IfSome default_number (λ k. k < none) } by { Prim.hlevel props },
}

impl Tally {
    ghost use Rattle.leaf.specs.Leaf.{clash};
    ghost use Rattle.block.specs.Answer.{found_as};
    ghost use Rattle.tally.specs.Answer.{counted};
    ghost use Rattle.tally.specs.Inside.{start_tally, plus};

    // Of no block.
    #[tactic(auto, unfolding(crate::specs::Inside::start_tally))]
    pub(crate) fn new() -> Tally
        ensures { counted result ≡ start_tally }
    {
        Tally {
            listed: 0,
            resets: 0,
            skipped: 0,
            power: 0,
            phy_resets: 0,
            defaults: 0,
            default_number: None,
        }
    }

    // With block `number` more.
    pub(crate) fn with(mut self, block: Block, number: u8) -> Tally
        requires listed_bound { (self.listed < 255) × (self.resets < 255) × (self.skipped < 255) × (self.power < 255) }
        requires phy_resets_bound { (self.phy_resets < 255) × (self.defaults < 255) }
        requires number_bound { number < none }
        ensures { counted result ≡ plus (counted self) (found_as block) number }
    {
        match block {
            Block::Listed(medium) => {
                self.listed += 1;
                self.phy_resets += u8::from(medium.resets_phy);
                self.defaults += u8::from(medium.is_default);
                self.default_number = self.default_number.or(medium.is_default.then_some(number));
            }
            Block::Reset { .. } => self.resets += 1,
            Block::Power { .. } => self.power += 1,
            Block::Unknown { .. } => self.skipped += 1,
        }
        self
    }

    // Two type 5 blocks, or one and a PHY block with r above 0, or two defaults.
    #[tactic(auto, unfolding(leaf::specs::Leaf::clash))]
    pub(crate) fn clashes(self) -> bool
        ensures { result ≡ clash self.resets self.phy_resets self.defaults }
    {
        1 < self.resets || 0 < self.resets && 0 < self.phy_resets || 1 < self.defaults
    }
}
