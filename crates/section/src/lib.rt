// A section of fibre concrete, what is refused of it, what it has, and a layer added to it (document 01, 'What a
// section is'; document 02 [4]: its flange).
#![tactic(auto)]

ghost use Rattle.std.specs.Prelude.{◌≡◌, true, cond, ◌&&◌, ◌++◌, ◌+◌, ◌*◌, ◌-◌, ◌≤◌, ◌<◌, ltb, leb, take, nat_abs, drop, false, eqb, ◌||◌, MatchResult};
ghost use Rattle.refusal.specs.Refusal.{number, number_of};
ghost use Rattle.arith.specs.Lines.{line, within};
ghost use Rattle.section.specs.declared.Layer.{Layer};
ghost use Rattle.section.specs.Section.{layers_of, in_range, rise, layers_right};
ghost use Rattle.section.specs.Refusal.{in_table, flange_right, mid_right, section_refusal};
ghost use Rattle.section.specs.Added.{taken, layer_refusal, inserted, Adds};
ghost use Rattle.section.specs.Has.{steel_area, steel_moment, last_depth};

use refusal::Refusal;

#[derive(Clone, Copy)]
pub struct Layer {
    pub depth: u16,
    pub area: u16,
}

// b, h, depths and spacing in mm, areas in mm², fck and fyk in N/mm², feq2 and feq3 in kPa, the load in N. hf and bf are
// the height and the width of the flange, in mm; hf 0 is none, and bf is then ignored.
#[derive(Clone, Copy)]
pub struct Section {
    pub b: u16,
    pub h: u16,
    pub hf: u16,
    pub bf: u16,
    pub fck: u16,
    pub fyk: u16,
    pub feq2: u16,
    pub feq3: u16,
    pub load: i32,
    pub asw: u16,
    pub spacing: u16,
    // A section may count more than 8, which 12 refuses: so the count is kept beside the array, and is no invariant.
    pub count: u16,
    pub layers: [Layer; 8],
}

// Why a layer is not added, and the section as it came.
#[derive(Clone, Copy)]
pub struct NotAdded {
    pub refusal: Refusal,
    pub section: Section,
}

// The layers below mid-height as one steel: their area As, and the sum of area times depth.
#[derive(Clone, Copy)]
pub struct Steel {
    pub area: u64,
    pub moment: u64,
}

impl From<NotAdded> for Refusal {
    ghost from_gives = { λ e r. r ≡ e.refusal };

    fn from(not_added: NotAdded) -> Refusal {
        not_added.refusal
    }
}

// A line of the table of refusals: it refuses where its test fails.
fn require(passes: bool, refusal: Refusal) -> Result<(), Refusal>
    ensures { MatchResult result (λ _. passes ≡ true) (λ e. (passes ≡ false) × (e ≡ refusal)) }
{
    if passes { Ok(()) } else { Err(refusal) }
}

// Each layer is in range, and deeper than the one above it.
fn rise(h: u16, layers: &[Layer]) -> bool
    ensures { result ≡ rise h 0 layers.now }
{
    layers.iter().all(|layer| layer.in_range(h))
        && layers.is_sorted_by(|above, layer| above.depth < layer.depth)
}

impl Layer {
    fn in_range(self, h: u16) -> bool
        ensures { result ≡ in_range h self }
    {
        0 < self.depth && self.depth < h && 0 < self.area
    }
}

impl Section {
    // The last depth of the grid: the neutral axis is each whole depth from 1 to it.
    pub fn last_depth(self) -> u32
        ensures { result ≡ last_depth self }
    {
        self.h as u32
    }

    // The layers below mid-height, as one steel.
    pub fn steel(self) -> Steel
        ensures { (result.area ≡ steel_area self) × (result.moment ≡ steel_moment self) × (result.area ≤ 65535 * 8) }
    {
        let mut area: u64 = 0;
        let mut moment: u64 = 0;
        for layer in self.present() {
            if (self.h as u32) < 2 * (layer.depth as u32) {
                let here = layer.area as u64;
                area += here;
                moment += here * (layer.depth as u64);
            }
        }
        Steel { area, moment }
    }

    // Whether a section is accepted: the first line of the table that it does not pass, of 7 to 13 with 20 after 8,
    // refuses it.
    #[tactic(auto, unfolding(crate::specs::Refusal::section_refusal))]
    pub fn check(self) -> Result<(), Refusal>
        ensures { number_of result ≡ section_refusal self }
    {
        require(self.concrete_right(), Refusal::Concrete)?;
        require(self.sizes_right(), Refusal::Sizes)?;
        require(self.flange_right(), Refusal::Flange)?;
        require(self.steel_right(), Refusal::BarStrength)?;
        require(self.fibres_right(), Refusal::Fibres)?;
        require(self.load_right(), Refusal::Load)?;
        require(self.bars_right(), Refusal::Bars)?;
        require(self.stirrups_right(), Refusal::Stirrups)
    }

    fn concrete_right(&self) -> bool
        ensures { result ≡ in_table self.now.fck }
    {
        (20..=50).contains(&self.fck) && self.fck % 5 == 0
    }

    fn sizes_right(&self) -> bool
        ensures { result ≡ within 50 2000 self.now.b && within 50 1000 self.now.h }
    {
        (50..=2000).contains(&self.b) && (50..=1000).contains(&self.h)
    }

    // hf below h, and bf from b to 2000: not tested where there is no flange.
    fn flange_right(&self) -> bool
        ensures { result ≡ flange_right self.now }
    {
        self.hf == 0 || self.hf < self.h && (self.b..=2000).contains(&self.bf)
    }

    fn steel_right(&self) -> bool
        ensures { result ≡ within 400 600 self.now.fyk }
    {
        (400..=600).contains(&self.fyk)
    }

    fn fibres_right(&self) -> bool
        ensures { result ≡ leb self.now.feq2 20000 && leb self.now.feq3 20000 }
    {
        self.feq2 <= 20000 && self.feq3 <= 20000
    }

    fn load_right(&self) -> bool
        ensures { result ≡ leb (nat_abs self.now.load) 10000000 }
    {
        self.load.unsigned_abs() <= 10000000
    }

    // The layers there are: a section that is handed over may count more than it has places for.
    fn present(&self) -> &[Layer]
        ensures { result.now ≡ take self.now.count self.now.layers }
    {
        let places = (self.count as usize).min(self.layers.len());
        &self.layers[..places]
    }

    #[tactic(auto, using(crate::proofs::Layers::front), unfolding(crate::specs::Section::layers_right))]
    fn layers_right(&self) -> bool
        ensures { result ≡ layers_right self.now }
    {
        self.count <= 8 && rise(self.h, self.present())
    }

    // And the deepest lies below mid-height.
    fn bars_right(&self) -> bool
        ensures { result ≡ layers_right self.now && mid_right self.now }
    {
        self.layers_right()
            && self
                .present()
                .last()
                .is_none_or(|deepest| (self.h as u32) < 2 * (deepest.depth as u32))
    }

    fn stirrups_right(&self) -> bool
        ensures { result ≡ eqb self.now.asw 0 || ltb 0 self.now.spacing }
    {
        self.asw == 0 || 0 < self.spacing
    }

    fn depth_taken(&self, depth: u16) -> bool
        requires { self.now.count ≤ 8 }
        ensures { result ≡ taken depth (layers_of self.now) }
    {
        self.present().iter().any(|layer| depth == layer.depth)
    }

    // Whether a layer can be added. All refuse by one number.
    #[tactic(auto, unfolding(crate::specs::Added::layer_refusal))]
    fn check_layer(&self, layer: Layer) -> Result<(), Refusal>
        ensures { number_of result ≡ layer_refusal self.now layer }
    {
        // More than 8 could not be looked through, and at 8 there is no place left.
        require(self.count < 8, Refusal::Bars)?;
        require(self.layers_right(), Refusal::Bars)?;
        require(!self.depth_taken(layer.depth), Refusal::Bars)?;
        require(layer.in_range(self.h), Refusal::Bars)
    }

    // The layers with one more, before the first that is deeper.
    fn with_one_more(&self, layer: Layer) -> [Layer; 8]
        requires { self.now.count < 8 }
        ensures { result ≡ inserted layer (layers_of self.now) ++ drop (self.now.count + 1) self.now.layers }
    {
        let m = self.count as usize;
        let at = self.layers[..m]
            .iter()
            .position(|here| layer.depth < here.depth)
            .unwrap_or(m);
        let mut layers = self.layers;
        layers.copy_within(at..m, at + 1);
        layers[at] = layer;
        layers
    }

    // The section with a layer in its place by depth; or 12, and the section as it came.
    #[tactic(auto, using(crate::proofs::Accepted::takes), unfolding(crate::specs::Added::with_layer))]
    pub fn with_layer(self, depth: u16, area: u16) -> Result<Section, NotAdded>
        ensures { Adds self (record { depth = depth; area = area }) result }
    {
        let layer = Layer { depth, area };
        if let Err(refusal) = self.check_layer(layer) {
            return Err(NotAdded {
                refusal,
                section: self,
            });
        }
        Ok(Section {
            count: self.count + 1,
            layers: self.with_one_more(layer),
            ..self
        })
    }
}
