// The made-up camera picture. It is computed pixel by pixel, and stored nowhere.
ghost use Rattle.std.specs.Prelude.{◌≡◌, ◌≤◌, ◌<◌};
ghost use Rattle.demo.specs.Camera.{rgb, lighter, apart, sky, roof, wall, pane, house_at, town, asphalt, middle_line, pavement, street, car_half, cabin, front, car, traffic, post, sill, scene, camera};

#[derive(Clone, Copy, Debug, PartialEq, Eq)]
pub struct Colour {
    pub r: u8,
    pub g: u8,
    pub b: u8,
}

// A colour, n lighter.
fn shade(r: u8, g: u8, b: u8, n: usize) -> Colour
    requires { (r ≤ 200) × (g ≤ 200) × (b ≤ 200) × (n ≤ 55) }
    ensures { result ≡ lighter (rgb r g b) n }
{
    Colour {
        r: r + n as u8,
        g: g + n as u8,
        b: b + n as u8,
    }
}

fn solid(r: u8, g: u8, b: u8) -> Colour
    ensures { result ≡ rgb r g b }
{
    Colour { r, g, b }
}

// How far two columns are apart.
fn distance(a: usize, b: usize) -> usize
    ensures { result ≡ apart a b }
{
    a.abs_diff(b)
}

fn sky_at(y: usize) -> Colour
    requires { y < 96 }
    ensures { result ≡ sky y }
{
    Colour {
        r: (52 + 2 * y) as u8,
        g: (60 + y) as u8,
        b: (120 - y / 4) as u8,
    }
}

fn roof_of(house: usize) -> usize
    requires { house < 15 }
    ensures { result ≡ roof house }
{
    60 + 8 * ((house * 5 + 1) % 7 % 4)
}

fn wall_of(house: usize) -> Colour
    requires { house < 15 }
    ensures { result ≡ wall house }
{
    shade(44, 40, 56, house * 53 % 23)
}

// A window, lit or dark.
fn pane_at(house: usize, u: usize, v: usize) -> Colour
    requires { (house < 15) × (u < 26) × (v < 96) }
    ensures { result ≡ pane house u v }
{
    if (5 * house + 3 * (u / 6) + 7 * (v / 8)) % 4 == 0 {
        return solid(250, 206, 118);
    }
    wall_of(house)
}

#[tactic(auto, unfolding(crate::specs::Camera::house_at))]
fn house_at(house: usize, u: usize, v: usize) -> Colour
    requires { (house < 15) × (u < 26) × (v < 96) }
    ensures { result ≡ house_at house u v }
{
    if u % 6 < 3 {
        return wall_of(house);
    }
    if v % 8 < 4 {
        return wall_of(house);
    }
    pane_at(house, u, v)
}

#[tactic(auto, unfolding(crate::specs::Camera::town))]
fn town_at(x: usize, y: usize) -> Colour
    requires { (x < 384) × (y < 96) }
    ensures { result ≡ town x y }
{
    let house = x / 26;
    let top = roof_of(house);
    if y < top {
        return sky_at(y);
    }
    house_at(house, x % 26, y - top)
}

fn asphalt_at(d: usize) -> Colour
    requires { d < 110 }
    ensures { result ≡ asphalt d }
{
    shade(58, 60, 68, d / 4)
}

fn middle_line(d: usize) -> Colour
    requires { d < 110 }
    ensures { result ≡ middle_line d }
{
    if 4096 / (d + 8) / 24 % 2 == 0 {
        return solid(214, 214, 206);
    }
    asphalt_at(d)
}

fn pavement_at(d: usize) -> Colour
    requires { d < 110 }
    ensures { result ≡ pavement d }
{
    shade(92, 88, 86, 6 * (4096 / (d + 8) / 8 % 2) + d / 4)
}

// Line d of the street, e columns from its middle.
#[tactic(auto, unfolding(crate::specs::Camera::street))]
fn street_at(e: usize, d: usize) -> Colour
    requires { d < 110 }
    ensures { result ≡ street e d }
{
    if e < 1 + d / 20 {
        return middle_line(d);
    }
    if e < 24 + d * 3 / 2 {
        return asphalt_at(d);
    }
    if e < 27 + d * 3 / 2 + d / 8 {
        return shade(168, 164, 154, d / 4);
    }
    pavement_at(d)
}

// Half of the car's width.
fn car_half(y: usize) -> usize
    ensures { result ≡ car_half y }
{
    if y < 128 {
        return 0;
    }
    if y < 138 {
        return 17;
    }
    if y < 156 {
        return 26;
    }
    0
}

#[tactic(auto, unfolding(crate::specs::Camera::cabin))]
fn cabin_at(e: usize, y: usize) -> Colour
    ensures { result ≡ cabin e y }
{
    if y < 131 {
        return solid(30, 52, 96);
    }
    if e < 14 {
        return solid(124, 146, 168);
    }
    solid(30, 52, 96)
}

#[tactic(auto, unfolding(crate::specs::Camera::front))]
fn front_at(e: usize, y: usize) -> Colour
    requires { (e < 384) × (y < 216) }
    ensures { result ≡ front e y }
{
    if (e + 1) % 24 < 16 {
        return solid(36, 62, 112);
    }
    if (y + 3) / 5 == 29 {
        return solid(255, 246, 204);
    }
    solid(36, 62, 112)
}

#[tactic(auto, unfolding(crate::specs::Camera::car))]
fn car_at(e: usize, y: usize) -> Colour
    requires { (e < 384) × (y < 216) }
    ensures { result ≡ car e y }
{
    if y < 138 {
        return cabin_at(e, y);
    }
    if y > 151 {
        return solid(30, 31, 36);
    }
    front_at(e, y)
}

// The street, and the car on it.
#[tactic(auto, unfolding(crate::specs::Camera::traffic))]
fn traffic_at(x: usize, y: usize) -> Colour
    requires { (x < 384) × (96 ≤ y) × (y < 204) }
    ensures { result ≡ traffic x y }
{
    let e = distance(x, 248);
    if e < car_half(y) {
        return car_at(e, y);
    }
    street_at(distance(x, 192), y - 95)
}

fn post_at(e: usize) -> Colour
    ensures { result ≡ post e }
{
    if e == 182 {
        return solid(96, 98, 104);
    }
    solid(38, 39, 44)
}

#[tactic(auto, unfolding(crate::specs::Camera::sill))]
fn sill_at(x: usize, y: usize) -> Colour
    requires { (x < 384) × (y < 216) }
    ensures { result ≡ sill x y }
{
    if y > 208 {
        return solid(38, 39, 44);
    }
    if (x + y) / 12 % 2 == 0 {
        return solid(230, 190, 40);
    }
    solid(30, 30, 30)
}

#[tactic(auto, unfolding(crate::specs::Camera::scene))]
fn scene_at(x: usize, y: usize) -> Colour
    requires { (x < 384) × (y < 216) }
    ensures { result ≡ scene x y }
{
    if y > 203 {
        return sill_at(x, y);
    }
    let e = distance(x, 192);
    if e > 181 {
        return post_at(e);
    }
    if y < 96 {
        return town_at(x, y);
    }
    traffic_at(x, y)
}

// The camera's pixel in column x of line y.
pub fn pixel(x: usize, y: usize) -> Colour
    ensures { result ≡ camera x y }
{
    scene_at(x % 384, y % 216)
}
