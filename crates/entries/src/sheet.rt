// A sheet and what it holds (document 01, "Filling in"). All of it is public data: whoever hands in a sheet
// may have built it by hand, which is what refusal 30 is for.
ghost use Rattle.std.specs.Prelude.{◌≡◌, List, ℕ, refl};
ghost use Rattle.entries.specs.Sheet.{blank_course, empty_sheet, tank_figures, site_figures, anchor_figures, course_figures, tank_with, site_with, anchors_with, course_with};

// The slots for courses, and the greatest shell height Hs.
pub const MOST_COURSES: usize = 12;

pub const MOST_HEIGHT: u64 = 76800;

// Fields 1 to 6, and 20.
#[derive(Clone, Copy, Debug, PartialEq, Eq)]
pub struct Tank {
    pub diameter: u32,
    // The water level above the bottom.
    pub level: u32,
    // The dead weight of shell and roof.
    pub weight: u32,
    // The bottom plate, its corrosion allowance and its yield stress.
    pub plate: u32,
    pub allowance: u32,
    pub fy: u32,
    // The liquid's specific gravity in thousandths; water has 1,000.
    pub gravity: u32,
}

// Fields 7 to 11.
#[derive(Clone, Copy, Debug, PartialEq, Eq)]
pub struct Site {
    // The wind's speed V, Kz and I.
    pub speed: u32,
    pub exposure: u32,
    pub importance: u32,
    // The earthquake's vertical acceleration Av and overturning moment Ms.
    pub vertical: u32,
    pub moment: u32,
}

// Fields 12 to 14.
#[derive(Clone, Copy, Debug, PartialEq, Eq)]
pub struct Anchors {
    pub number: u32,
    // The diameter of the bolt circle, and the size of a bolt.
    pub circle: u32,
    pub size: u32,
}

// Fields 15 to 19.
#[derive(Clone, Copy, Debug, PartialEq, Eq)]
pub struct Course {
    pub width: u32,
    pub plate: u32,
    pub allowance: u32,
    // The design stress, and the joint efficiency.
    pub stress: u32,
    pub efficiency: u32,
}

// What is stated, and the courses from the bottom up, `count` of them; the slots past them are blank (there is no heap).
// No anchors are not the same as N = 0 stated (document 02, S-1).
#[derive(Clone, Copy, Debug, PartialEq, Eq)]
pub struct Sheet {
    pub tank: Option<Tank>,
    pub site: Option<Site>,
    pub anchors: Option<Anchors>,
    pub courses: [Course; 12],
    pub count: usize,
}

// An entry by its figures, in the documents' order of the fields, which each of the four states for its own.
pub trait Entry<const N: usize>: Copy {
    ghost figures_of: { Self → List ℕ };

    ghost entry_of: { List ℕ → Self };

    fn figures(self) -> [u32; N]
        ensures { result ≡ figures_of self };

    fn with(figures: [u32; N]) -> Self
        ensures { result ≡ entry_of figures.entry };

    // No two entries have the same figures.
    ghost restores: { (e : Self) → entry_of (figures_of e) ≡ e };
}

impl Entry<7> for Tank {
    ghost figures_of = { tank_figures };

    ghost entry_of = { tank_with };

    ghost restores = { λ t. refl };

    fn figures(self) -> [u32; 7] {
        [
            self.diameter,
            self.level,
            self.weight,
            self.plate,
            self.allowance,
            self.fy,
            self.gravity,
        ]
    }

    fn with(figures: [u32; 7]) -> Self
        ensures { result ≡ tank_with figures }
    {
        let [diameter, level, weight, plate, allowance, fy, gravity] = figures;
        Tank {
            diameter,
            level,
            weight,
            plate,
            allowance,
            fy,
            gravity,
        }
    }
}

impl Entry<5> for Site {
    ghost figures_of = { site_figures };

    ghost entry_of = { site_with };

    ghost restores = { λ x. refl };

    fn figures(self) -> [u32; 5] {
        [
            self.speed,
            self.exposure,
            self.importance,
            self.vertical,
            self.moment,
        ]
    }

    fn with(figures: [u32; 5]) -> Self
        ensures { result ≡ site_with figures }
    {
        let [speed, exposure, importance, vertical, moment] = figures;
        Site {
            speed,
            exposure,
            importance,
            vertical,
            moment,
        }
    }
}

impl Entry<3> for Anchors {
    ghost figures_of = { anchor_figures };

    ghost entry_of = { anchors_with };

    ghost restores = { λ a. refl };

    fn figures(self) -> [u32; 3] {
        [self.number, self.circle, self.size]
    }

    fn with(figures: [u32; 3]) -> Self
        ensures { result ≡ anchors_with figures }
    {
        let [number, circle, size] = figures;
        Anchors {
            number,
            circle,
            size,
        }
    }
}

impl Entry<5> for Course {
    ghost figures_of = { course_figures };

    ghost entry_of = { course_with };

    ghost restores = { λ c. refl };

    fn figures(self) -> [u32; 5] {
        [
            self.width,
            self.plate,
            self.allowance,
            self.stress,
            self.efficiency,
        ]
    }

    fn with(figures: [u32; 5]) -> Self
        ensures { result ≡ course_with figures }
    {
        let [width, plate, allowance, stress, efficiency] = figures;
        Course {
            width,
            plate,
            allowance,
            stress,
            efficiency,
        }
    }
}

impl Course {
    // What a slot that no course has been stated for holds. Not Default: no course begins with these figures.
    pub fn blank() -> Course
        ensures { result ≡ blank_course }
    {
        Course {
            width: 0,
            plate: 0,
            allowance: 0,
            stress: 0,
            efficiency: 0,
        }
    }
}

impl Sheet {
    // Not Default either, since its slots are blank.
    pub fn empty() -> Sheet
        ensures { result ≡ empty_sheet }
    {
        Sheet {
            tank: None,
            site: None,
            anchors: None,
            courses: [Course::blank(); MOST_COURSES],
            count: 0,
        }
    }
}
