// Theory only: links with the same ends part no mesh, and two nodes with two links take one delivery on each wavelength.
#![tactic(auto)]
